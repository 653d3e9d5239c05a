//! The start of a run: its formula, and the tree by which the formula is split.

ghost use Rattle.std.specs.Prelude.{◌≡◌, ℕ, List, IfOk, IfSome, IfNone, option_map};
ghost use Rattle.dimacs.specs.logic.Limits.{written};
ghost use Rattle.dimacs.specs.text.Parser.{parse, parse_within, GivesFormula};
ghost use Rattle.command_line.specs.Options.{AreOptions};
ghost use Rattle.reports.specs.Faults.{cubes_fault_text, input_fault_text, other_formula_text};
ghost use Rattle.node_main.specs.SolveReports.{IsRefused};
ghost use Rattle.node_main.specs.RunStart.{IsStart, Starts};

use crate::formula_split::{Split, split_of};
use command_line::Options;
use cube_split::Opened;
use dimacs::{DimacsFault, Formula, Kind, Limits};
use icnf::{IcnfFault, Tree};
use reports::{Report, faulty_cubes, faulty_input, other_formula};
use std::alloc::{AllocError, Global};

/// The start of a run.
#[derive(Drop)]
pub enum Start {
    /// The formula of the input with its definitions, and the tree by which the formula is split.
    With(Opened, Tree),
    /// The report that refuses the input or the cubes.
    Refused(Report),
}

/// The report of an input that has this fault, status 1; without text if `quiet` is set. An error is want of memory.
pub(crate) fn refused_input(
    alloc: Global,
    fault: DimacsFault,
    options: &Options,
) -> Result<Report, AllocError>
    ensures { IfOk result (IsRefused (input_fault_text fault) options.now) }
{
    if options.quiet {
        Report::of(alloc, b"", 1)
    } else {
        faulty_input(alloc, fault)
    }
}

/// The report of cubes that are refused, status 1: they have this fault, or, at `None`, their clauses are not those of the formula. It has
/// no text if `quiet` is set. An error is want of memory.
fn refused_cubes(
    alloc: Global,
    fault: Option<IcnfFault>,
    options: &Options,
) -> Result<Report, AllocError>
    ensures faulty { IfSome fault (λ f. IfOk result (IsRefused (cubes_fault_text f) options.now)) }
    ensures other { IfNone fault (IfOk result (IsRefused other_formula_text options.now)) }
{
    if options.quiet {
        return Report::of(alloc, b"", 1);
    }
    match fault {
        Some(fault) => faulty_cubes(alloc, fault),
        None => other_formula(alloc),
    }
}

/// Splits a formula that was read, by the cubes of an iCNF text or, without one, by the split rule. Answers `Refused` if the input has a
/// fault or the cubes are refused, before any link is needed. The error stands for the report `c no memory`, status 1.
pub fn begin(
    alloc: Global,
    found: Result<Formula, DimacsFault>,
    cubes: Option<&[u8]>,
    options: &Options,
) -> Result<Start, AllocError>
    requires { AreOptions options.now }
    ensures starts { (input : List ℕ) → GivesFormula found (parse input) → IfOk result (Starts written input (option_map (λ t. t.now) cubes.entry) options.now) }
    ensures start { IfOk result (IsStart options.now) }
{
    begin_within(alloc, found, Limits::written(), cubes, options)
}

/// Splits a formula that was read within these limits, by the cubes of an iCNF text, read within
/// them too, or, without one, by the split rule. Answers `Refused` if the input has a fault or the
/// cubes are refused, before any link is needed. The error stands for the report `c no memory`,
/// status 1.
#[tactic(auto, using(crate::proofs::StartLemmas::spelled))]
pub fn begin_within(
    alloc: Global,
    found: Result<Formula, DimacsFault>,
    limits: Limits,
    cubes: Option<&[u8]>,
    options: &Options,
) -> Result<Start, AllocError>
    requires { AreOptions options.now }
    ensures starts { (input : List ℕ) → GivesFormula found (parse_within limits input) → IfOk result (Starts limits input (option_map (λ t. t.now) cubes.entry) options.now) }
    ensures start { IfOk result (IsStart options.now) }
{
    let _ = limits.vars(); // its contract says that the limits are no more than the large ones
    let formula = match found {
        Ok(formula) => formula,
        Err(fault) if fault.kind == Kind::NoMemory => return Err(AllocError),
        Err(fault) => return Ok(Start::Refused(refused_input(alloc, fault, options)?)),
    };
    let opened = Opened::of(alloc, formula, options.defs)?;
    let report = match split_of(alloc, &opened, limits, cubes, options.depth)? {
        Split::By(tree) => return Ok(Start::With(opened, tree)),
        Split::Faulty(fault) => refused_cubes(alloc, Some(fault), options)?,
        Split::OtherFormula => refused_cubes(alloc, None, options)?,
    };
    Ok(Start::Refused(report))
}
