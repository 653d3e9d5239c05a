//! Writes lines of a log with imports. Those with clauses are made of lines of LRAT text, which `lrat_text` writes.

ghost use Rattle.std.specs.Prelude.{◌≡◌, ℕ, ◌++◌, ◌∷◌, ◌≤◌, List, [], length, codes, decimal, OnOk};
ghost use Rattle.lrat_text.specs.Grammar.{IsStepWithin};
ghost use Rattle.lrat_text.specs.WrittenLine.{line_of};
ghost use Rattle.lrat_text.specs.declared.step.Step.TheVariants.{Add};
ghost use Rattle.cell_worker.specs.inner.SharedLines.{import_text, name_text, clock_text};

use dimacs::Lit;
use itoa::Buffer;
use lrat_text::{Groups, StepRef, put_ref_within};
use std::alloc::AllocError;

/// Appends a number in decimal.
pub(crate) fn put_number(out: &mut Vec<u8>, number: u64) -> Result<(), AllocError>
    ensures { OnOk result (out.new.items ≡ out.old.items ++ decimal number) }
{
    let mut buffer = Buffer::new();
    let text = buffer.format(number);
    out.extend_from_slice(text.as_bytes())
}

/// Appends the line of LRAT text that adds a clause under the number `id`, by hints.
pub(crate) fn put_lemma(
    out: &mut Vec<u8>,
    id: u64,
    lits: &[Lit],
    hints: &[u64],
) -> Result<(), AllocError>
    requires { IsStepWithin 199999999 (Add id lits.now hints.now []) }
    ensures { OnOk result (out.new.items ≡ out.old.items ++ line_of id (Add id lits.now hints.now [])) }
{
    let groups = Groups::new(*out.allocator());
    put_ref_within(
        StepRef::Add {
            id,
            lits,
            hints,
            groups: &groups,
        },
        id,
        out,
    )
}

/// Appends `w NUMBER NAME 0` and an LF: the number stands for the name of a log.
pub(crate) fn put_name(out: &mut Vec<u8>, number: u64, name: &[u8]) -> Result<(), AllocError>
    ensures { OnOk result (out.new.items ≡ out.old.items ++ (name_text number name.now ++ 10 ∷ [])) }
{
    out.extend_from_slice(b"w ")?;
    put_number(out, number)?;
    out.push(b' ')?;
    out.extend_from_slice(name)?;
    out.extend_from_slice(b" 0\n")
}

/// Appends `e TIME 0` and an LF: the clock is at this time.
pub(crate) fn put_clock(out: &mut Vec<u8>, time: u64) -> Result<(), AllocError>
    ensures { OnOk result (out.new.items ≡ out.old.items ++ (clock_text time ++ 10 ∷ [])) }
{
    out.extend_from_slice(b"e ")?;
    put_number(out, time)?;
    out.extend_from_slice(b" 0\n")
}

/// Appends a line without its first byte.
fn put_behind_first(out: &mut Vec<u8>, line: &[u8]) -> Result<(), AllocError>
    requires { 1 ≤ length line.now }
    ensures { OnOk result ((first : ℕ) (rest : List ℕ) → line.now ≡ first ∷ rest → out.new.items ≡ out.old.items ++ rest) }
{
    out.extend_from_slice(&line[1..])
}

/// Appends `ID i LITERALS 0 LOG THERE 0` and an LF: the clause is the lemma that the log of number `log` has under the number `there`.
/// `line` is a buffer that is reused.
pub(crate) fn put_import(
    out: &mut Vec<u8>,
    line: &mut Vec<u8>,
    id: u64,
    lits: &[Lit],
    log: u64,
    there: u64,
) -> Result<(), AllocError>
    requires { IsStepWithin 199999999 (Add 1 lits.now (log ∷ there ∷ []) []) }
    ensures { OnOk result (out.new.items ≡ out.old.items ++ (import_text id lits.now log there ++ 10 ∷ [])) }
{
    line.clear();
    put_lemma(line, 1, lits, &[log, there])?;
    put_number(out, id)?;
    out.extend_from_slice(b" i")?;
    put_behind_first(out, line) // its number has one digit
}
