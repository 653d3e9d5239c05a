//! The encoder of steps in the binary form. If memory is refused, each function may have appended a prefix of its bytes.

ghost use Rattle.std.specs.Prelude.{◌++◌, ◌∷◌, [], All, OnOk, map};
ghost use Rattle.std.specs.List.{flat_map};
ghost use Rattle.lrat_text.specs.Grammar.{IsClauseNumber, IsGroup, IsStep, IsStepWithin};
ghost use Rattle.lrat_text.specs.Steps.{step_of};
ghost use Rattle.lrat_text.specs.declared.step.Step.TheVariants.{Add, Delete};
ghost use Rattle.lrat_binary.specs.Grammar.{clause_code, group_codes, step_codes};
ghost use Rattle.lrat_forms.specs.inner.Codes.{Adds, AddsStep};

use crate::codes::{put_code, put_groups, put_literals, put_numbers};
use crate::limit::Limit;
use dimacs::Lit;
use lrat_text::{Groups, StepRef};
use std::alloc::AllocError;

/// Appends the codes of an addition's hints and groups, and the 0 that ends them.
fn put_reasons(out: &mut Vec<u8>, hints: &[u64], groups: &Groups) -> Result<(), AllocError>
    requires hints { All IsClauseNumber hints.now }
    requires groups { All IsGroup groups.now }
    ensures { OnOk result (Adds out.old.items out.new.items (map clause_code hints.now ++ flat_map group_codes groups.now ++ 0 ∷ [])) }
{
    put_numbers(out, hints)?;
    put_groups(out, groups)?;
    put_code(out, 0)
}

/// Appends the codes of an addition, without its letter.
fn put_addition(
    out: &mut Vec<u8>,
    limit: Limit,
    id: u64,
    lits: &[Lit],
    hints: &[u64],
    groups: &Groups,
) -> Result<(), AllocError>
    requires { IsStepWithin limit.most (Add id lits.now hints.now groups.now) }
    ensures { OnOk result (Adds out.old.items out.new.items (step_codes (Add id lits.now hints.now groups.now))) }
{
    put_code(out, 2 * id)?;
    put_literals(out, lits)?;
    put_code(out, 0)?;
    put_reasons(out, hints, groups)
}

/// Appends the codes of a deletion, without its letter.
fn put_deletion(out: &mut Vec<u8>, ids: &[u64]) -> Result<(), AllocError>
    requires { IsStep (Delete ids.now) }
    ensures { OnOk result (Adds out.old.items out.new.items (step_codes (Delete ids.now))) }
{
    put_numbers(out, ids)?;
    put_code(out, 0)
}

/// Appends a step with variables up to the limit: the letter `a` or `d`, then its codes.
pub(crate) fn put_step(out: &mut Vec<u8>, limit: Limit, step: StepRef<'_>) -> Result<(), AllocError>
    requires { IsStepWithin limit.most (step_of step) }
    ensures { OnOk result (AddsStep limit.most out.old.items out.new.items (step_of step.entry)) }
{
    match step {
        StepRef::Add {
            id,
            lits,
            hints,
            groups,
        } => {
            out.push(b'a')?;
            put_addition(out, limit, id, lits, hints, groups)
        }
        StepRef::Delete { ids } => {
            out.push(b'd')?;
            put_deletion(out, ids)
        }
    }
}
