//! The lines of a preamble: unit clauses, and definitions.

ghost use Rattle.std.specs.Prelude.{◌≡◌, ◌+◌, ◌*◌, ◌^◌, ◌<◌, ◌≤◌, ◌++◌, length, All, IfOk};
ghost use Rattle.cube_split.specs.Definitions.{IsPairOf, base_with};
ghost use Rattle.dimacs.specs.logic.Base.{pure_literals};
ghost use Rattle.dimacs.specs.logic.Literal.{IsWithin};
ghost use Rattle.lrat_text.specs.Runs.{text_of};
ghost use Rattle.proof_join.specs.Definitions.{all_steps, definition_steps, preamble_steps};
ghost use Rattle.proof_join.specs.JoinedProof.{unit_steps};
ghost use Rattle.proof_join.specs.inner.Steps.{Writes};

use crate::fault::JoinFault;
use crate::output::{Output, put_line};
use cube_split::{Pair, Preamble};
use dimacs::{Formula, Lit, Var};
use lrat_text::{Groups, StepRef};
use std::alloc::Global;

/// Appends the additions of a preamble's unit clauses under the numbers after `top`. Returns the last number.
fn put_units(alloc: Global, out: &mut Output<'_>, top: u64, units: &[Lit]) -> Result<u64, JoinFault>
    requires few { (top ≤ 99999999) × (length units.now ≤ 99999999) }
    requires within { All (IsWithin 199999999) units.now }
    requires short { length out.old < 2 ^ 32 }
    ensures text { Writes result out.new (out.old ++ text_of top (unit_steps top units.now)) }
    ensures top { IfOk result (λ n. n ≡ top + length units.now) }
{
    let groups = Groups::new(alloc);
    let mut last = top;
    for unit in units {
        let id = last + 1;
        let line = StepRef::Add {
            id,
            lits: &[*unit],
            hints: &[],
            groups: &groups,
        };
        put_line(out, id, line)?;
        last = id;
    }
    Ok(last)
}

/// Appends the three lines that define a variable as the conjunction of a pair, under the numbers after `top`.
fn put_definition(
    alloc: Global,
    out: &mut Output<'_>,
    top: u64,
    variable: Var,
    pair: Pair,
) -> Result<(), JoinFault>
    requires few { top ≤ 200000190 }
    requires variable { (0 < variable) × (variable ≤ 199999999) }
    requires first { IsWithin 199999999 pair.first }
    requires second { IsWithin 199999999 pair.second }
    ensures { Writes result out.new (out.old ++ text_of top (definition_steps top variable pair)) }
{
    let defined = Lit::positive(variable);
    let none = Groups::new(alloc);
    let mut first_line = Groups::new(alloc);
    first_line.push(top + 1, &[])?;
    let both = StepRef::Add {
        id: top + 1,
        lits: &[defined, pair.first.negate(), pair.second.negate()],
        hints: &[],
        groups: &none,
    };
    put_line(out, top + 1, both)?;
    let one = StepRef::Add {
        id: top + 2,
        lits: &[defined.negate(), pair.first],
        hints: &[],
        groups: &first_line,
    };
    put_line(out, top + 2, one)?;
    let other = StepRef::Add {
        id: top + 3,
        lits: &[defined.negate(), pair.second],
        hints: &[],
        groups: &first_line,
    };
    put_line(out, top + 3, other)
}

/// Appends the lines that define the variables after `vars`, one variable for each pair, under the numbers after `top`. Returns the last
/// number.
fn put_definitions(
    alloc: Global,
    out: &mut Output<'_>,
    top: u64,
    vars: u32,
    pairs: &[Pair],
) -> Result<u64, JoinFault>
    requires few { (top ≤ 199999998) × (vars ≤ 99999999) × (length pairs.now ≤ 64) }
    requires within { All (IsPairOf vars) pairs.now }
    requires short { length out.old < 2 ^ 32 }
    ensures text { Writes result out.new (out.old ++ text_of top (all_steps top (vars + 1) pairs.now)) }
    ensures top { IfOk result (λ n. n ≡ top + 3 * length pairs.now) }
{
    let mut last = top;
    let mut variable = vars;
    for &pair in pairs {
        variable += 1;
        put_definition(alloc, out, last, Var::new(variable), pair)?;
        last += 3;
    }
    Ok(last)
}

/// Appends the lines of a preamble. Returns the last number, which is the number of the formula's clauses if there is no line.
pub(crate) fn put_preamble(
    alloc: Global,
    out: &mut Output<'_>,
    formula: &Formula,
    preamble: &Preamble,
) -> Result<u64, JoinFault>
    requires units { preamble.now.units ≡ pure_literals formula.now }
    requires pairs { All (IsPairOf formula.now.vars) preamble.now.pairs }
    requires short { length out.old < 2 ^ 32 }
    ensures text { Writes result out.new (out.old ++ text_of (length formula.now.clauses) (preamble_steps formula.now preamble.now.pairs)) }
    ensures top { IfOk result (λ n. n ≡ length (base_with formula.now preamble.now.pairs).clauses) }
    ensures few { IfOk result (λ n. n ≤ 200000190) }
{
    let vars = formula.vars();
    let top = put_units(alloc, out, formula.len() as u64, preamble.units())?;
    put_definitions(alloc, out, top, vars, preamble.pairs())
}
