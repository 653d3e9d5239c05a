//! `cubes`: prints the cubes into which a formula is split.

ghost use Rattle.std.specs.Prelude.{◌≡◌, ◌≤◌, ◌↔◌, ◌⊎◌, IfOk, None};
ghost use Rattle.dimacs.specs.logic.Cnf.{Cnf, FitsIn};
ghost use Rattle.dimacs.specs.logic.Limits.{Limits, written};
ghost use Rattle.dimacs.specs.text.Grammar.{Spells, SpellsWithin};
ghost use Rattle.dimacs.specs.text.Parser.{parse, parse_within};
ghost use Rattle.node_main.specs.CubesText.{ShowsCubes, PrintsCubes};

use cube_split::tree;
use dimacs::{Formula, Kind, Limits};
use reports::{Report, faulty_input};
use std::alloc::{AllocError, Global};

/// The report of the cubes into which a formula is split to this depth, from 0 to 16. An error is want of memory.
fn listed(alloc: Global, formula: &Formula, depth: u32) -> Result<Report, AllocError>
    requires { depth ≤ 16 }
    ensures text { IfOk result (λ r. (L : Limits) → FitsIn L formula.now → ShowsCubes L formula.now depth r.stdout.items) }
    ensures status { IfOk result (λ r. r.status ≡ 0) }
    ensures proof { IfOk result (λ r. r.proof ≡ None) }
{
    let tree = tree(alloc, formula, depth)?;
    let mut report = Report::of(alloc, b"", 0)?;
    icnf::write(formula, &tree, &mut report.stdout)?;
    Ok(report)
}

/// Reads a formula, splits it by the split rule to this depth, from 0 to 16, and reports its clauses and the cubes as an iCNF text. The
/// error stands for the report `c no memory`, status 1.
pub fn run_cubes(alloc: Global, input: &[u8], depth: u32) -> Result<Report, AllocError>
    requires { depth ≤ 16 }
    // Status 0 if and only if the input spells a formula.
    ensures spelled { IfOk result (λ r. (r.status ≡ 0) ↔ ((F : Cnf) × Spells input.now F)) }
    ensures status { IfOk result (λ r. (r.status ≡ 0) ⊎ (r.status ≡ 1)) }
    // The formula's clauses and the cubes of its tree, or the fault of the input.
    ensures text { IfOk result (λ r. PrintsCubes written (parse input.now) depth r.stdout.items) }
    ensures proof { IfOk result (λ r. r.proof ≡ None) }
{
    run_cubes_within(alloc, Limits::written(), input, depth)
}

/// Reads a formula within these limits, splits it by the split rule to this depth, from 0 to 16,
/// and reports its clauses and the cubes as an iCNF text. The error stands for the report `c no
/// memory`, status 1.
pub fn run_cubes_within(
    alloc: Global,
    limits: Limits,
    input: &[u8],
    depth: u32,
) -> Result<Report, AllocError>
    requires { depth ≤ 16 }
    ensures spelled { IfOk result (λ r. (r.status ≡ 0) ↔ ((F : Cnf) × SpellsWithin limits input.now F)) }
    ensures status { IfOk result (λ r. (r.status ≡ 0) ⊎ (r.status ≡ 1)) }
    ensures text { IfOk result (λ r. PrintsCubes limits (parse_within limits input.now) depth r.stdout.items) }
    ensures proof { IfOk result (λ r. r.proof ≡ None) }
{
    match dimacs::read_within(alloc, limits, input) {
        Ok(formula) => listed(alloc, &formula, depth),
        Err(fault) if fault.kind == Kind::NoMemory => Err(AllocError),
        Err(fault) => faulty_input(alloc, fault),
    }
}
