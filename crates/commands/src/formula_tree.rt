//! The two inputs of each command over leaves: a formula, and the tree of its cubes.

ghost use Rattle.std.specs.Prelude.{◌≡◌, ◌≢◌, ℕ, List, Ok, Err, [], ◌++◌, IfOk, IfErr, OnOk};
ghost use Rattle.commands.specs.FormulaTree.{Begins, IsHushed, cubes_text};
ghost use Rattle.commands.specs.inner.FormulaTree.{ReadsTree};
ghost use Rattle.commands.specs.inner.Feed.{Extends};
ghost use Rattle.commands.specs.Known.{HoldsOf};
ghost use Rattle.commands.specs.Refusals.{IsRefusedAs, IsOneOf, IsWanting};
ghost use Rattle.dimacs.specs.logic.Limits.{Limits};
ghost use Rattle.dimacs.specs.text.Parser.{GivesFormula, parse_within, no_memory};
ghost use Rattle.icnf.specs.Parser.{no_memory as no_cubes_memory};
ghost use Rattle.icnf.specs.declared.cubes_fault.CubesFault.TheVariants.{Faulty};
ghost use Rattle.leaves.specs.Leaf.{Prints};
ghost use Rattle.reports.specs.Faults.{input_fault_text};

use crate::disk::Disk;
use crate::feed_loop::{Feeds, feed_all};
use crate::piece_reader::Pieces;
use crate::whole_source::{out_of_memory, read_formula};
use dimacs::{DimacsFault, Formula, Kind, Limits};
use icnf::{CubesFault, Kind as CubesKind};
use leaves::{Split, SplitReader};
use reports::{Refusal, Report, faulty_cubes, faulty_input, other_formula};
use std::alloc::Global;
use std::io::Read;

/// A formula with the tree of its cubes, or the report of why they are refused.
#[derive(Drop)]
pub enum Begun {
    /// The formula of the input, with the tree of the cubes.
    With(Split),
    /// The input or the cubes are refused: what is reported of them.
    Refused(Report),
}

/// The reader of the cubes of a formula. If the formula has a fault, the file of cubes is read all the same, since a file that cannot be
/// read is reported before a fault of the other one.
#[derive(Drop)]
struct TreeText {
    /// The reader of the cubes, or the first fault of the formula.
    reader: Result<SplitReader, DimacsFault>,
}

impl Feeds for TreeText {
    ghost use Rattle.commands.specs.inner.Feed.{extends_nothing, extends_more};

    ghost took = { λ old new more. (L : Limits) (input : List ℕ) → Extends (λ cubes t. ReadsTree L input cubes t.reader) old new more };

    ghost nothing = { λ s L input. extends_nothing (λ cubes t. ReadsTree L input cubes t.reader) s };

    ghost more = { λ a b c xs ys h k L input. extends_more (λ cubes t. ReadsTree L input cubes t.reader) a b c xs ys (h L input) (k L input) };

    /// Gives the next piece of the cubes' file to their reader, unless the formula had a fault.
    fn feed(&mut self, piece: &[u8]) -> Result<(), Refusal> {
        if let Ok(reader) = &mut self.reader {
            reader.feed(piece);
        }
        Ok(())
    }

    /// False: the cubes are read to their end even after a fault, so that a read that fails is told
    /// first.
    fn is_settled(&self) -> bool {
        false
    }
}

/// Reports, with status 1, a fault of the cubes, or that they are of another formula. Out of memory is an error instead.
fn refused_cubes(alloc: Global, fault: CubesFault) -> Result<Report, Refusal>
    ensures text { IfOk result (Prints 1 (cubes_text fault)) }
    ensures memory { OnOk result (fault ≢ Faulty no_cubes_memory) }
    ensures refused { IfErr result IsWanting }
{
    let report = match fault {
        CubesFault::Faulty(fault) if fault.kind == CubesKind::NoMemory => {
            return Err(Refusal::NoMemory);
        }
        CubesFault::Faulty(fault) => faulty_cubes(alloc, fault),
        CubesFault::OtherFormula => other_formula(alloc),
    };
    report.map_err(out_of_memory)
}

/// Reports, with status 1, a fault of the formula. Out of memory is an error instead.
pub fn refused_input(alloc: Global, fault: DimacsFault) -> Result<Report, Refusal>
    ensures text { IfOk result (Prints 1 (input_fault_text fault)) }
    ensures memory { OnOk result (fault ≢ no_memory) }
    ensures refused { IfErr result IsWanting }
{
    if fault.kind == Kind::NoMemory {
        return Err(Refusal::NoMemory);
    }
    faulty_input(alloc, fault).map_err(out_of_memory)
}

/// Ends the file of cubes: answers the formula with their tree, or the report of the first fault of
/// the formula, else of the cubes.
fn ended(alloc: Global, text: TreeText) -> Result<Begun, Refusal>
    ensures begins { (L : Limits) (input cubes : List ℕ) → ReadsTree L input cubes text.reader → IfOk result (Begins L input cubes) }
    ensures refused { IfErr result IsWanting }
{
    let TreeText { reader } = text;
    match reader {
        Ok(reader) => match reader.finish() {
            Ok(split) => Ok(Begun::With(split)),
            Err(fault) => Ok(Begun::Refused(refused_cubes(alloc, fault)?)),
        },
        Err(fault) => Ok(Begun::Refused(refused_input(alloc, fault)?)),
    }
}

/// A reader of cubes that has read no byte, for the formula that was found in an input; a fault of
/// the input is kept in place of the reader.
fn opened(
    alloc: Global,
    limits: Limits,
    found: Result<Formula, DimacsFault>,
) -> Result<TreeText, Refusal>
    ensures reads { IfOk result (λ t. (input : List ℕ) → GivesFormula found (parse_within limits input) → ReadsTree limits input [] t.reader) }
    ensures refused { IfErr result IsWanting }
{
    let reader = match found {
        Ok(formula) => SplitReader::within(alloc, limits, formula).map_err(out_of_memory)?,
        Err(fault) => return Ok(TreeText { reader: Err(fault) }),
    };
    Ok(TreeText { reader: Ok(reader) })
}

/// Reads the cubes, within these limits, after an input in which a formula or a fault was found. Answers the formula with their tree, or
/// the report of the first fault of the formula, else of the cubes. It errs if the cubes cannot be read or memory runs out.
fn begin_tree<S: Read + Drop>(
    alloc: Global,
    limits: Limits,
    found: Result<Formula, DimacsFault>,
    cubes: &mut Pieces<S>,
) -> Result<Begun, Refusal>
    ensures begins { (input : List ℕ) → GivesFormula found (parse_within limits input)
        → IfOk result (λ b. HoldsOf (S.remaining cubes.old.source) (λ text. Begins limits input text b)) }
    ensures refused { IfErr result (IsRefusedAs cubes.old.refusal) }
{
    let mut text = opened(alloc, limits, found)?;
    feed_all(cubes, &mut text)?;
    ended(alloc, text)
}

/// Reads the formula in the file `input`, and the tree of its cubes in the file `cubes`, both within these limits. Answers both, or the
/// report of the first fault of the formula, else of the cubes. It errs if a file cannot be read, even if the other one has a fault.
pub fn begin_files<D: Disk>(
    disk: &D,
    limits: Limits,
    input: &str,
    cubes: &str,
) -> Result<Begun, Refusal>
    ensures begins { IfOk result (λ b. HoldsOf (D.holds disk.now input.now) (λ text. HoldsOf (D.holds disk.now cubes.now) (λ tree. Begins limits text tree b))) }
    ensures refused { IfErr result (IsOneOf Refusal.Input Refusal.Cubes) }
{
    let mut text = disk.open(input, Refusal::Input)?;
    let found = read_formula(disk.alloc(), limits, &mut text)?;
    let mut tree = disk.open(cubes, Refusal::Cubes)?;
    begin_tree(disk.alloc(), limits, found, &mut tree)
}

/// Removes the text of a report if the user asked for quiet (`-q`); its status stays.
pub fn hushed(mut report: Report, quiet: bool) -> Report
    ensures { IsHushed quiet report result }
{
    if quiet {
        report.stdout.clear();
    }
    report
}
