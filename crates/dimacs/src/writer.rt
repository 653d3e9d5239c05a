//! The writer of DIMACS texts. After a refusal of memory, each function except [`write`] may have appended a prefix of its text.

ghost use Rattle.std.specs.Prelude.{◌≡◌, ◌+◌, ◌++◌, ◌∷◌, [], length, take, OnOk, OnErr, decimal, codes, flat_map};
ghost use Rattle.dimacs.specs.logic.Cnf.{FitsIn};
ghost use Rattle.dimacs.specs.logic.Limits.{Limits};
ghost use Rattle.dimacs.specs.text.Grammar.{spelling, literal_text, clause_line, clause_text, header_text, Begins, SpellsWithin};

use crate::formula::Formula;
use crate::literal::Lit;
use itoa::Buffer;
use std::alloc::AllocError;

/// Appends a text.
pub(crate) fn put(out: &mut Vec<u8>, text: &[u8]) -> Result<(), AllocError>
    ensures ok { OnOk result (out.new.items ≡ out.old.items ++ text.now) }
    ensures begins { Begins out.old.items out.new.items }
{
    out.extend_from_slice(text)
}

/// Appends a number in decimal.
fn put_number(out: &mut Vec<u8>, number: u64) -> Result<(), AllocError>
    ensures ok { OnOk result (out.new.items ≡ out.old.items ++ decimal number) }
    ensures begins { Begins out.old.items out.new.items }
{
    let mut buffer = Buffer::new();
    let text = buffer.format(number);
    put(out, text.as_bytes())
}

/// Appends a literal's number and a space.
fn put_literal(out: &mut Vec<u8>, literal: Lit) -> Result<(), AllocError>
    ensures ok { OnOk result (out.new.items ≡ out.old.items ++ literal_text literal) }
    ensures begins { Begins out.old.items out.new.items }
{
    let mut buffer = Buffer::new();
    let text = buffer.format(literal.number());
    put(out, text.as_bytes())?;
    put(out, b" ")
}

/// Appends a clause's line: each literal and a space, then `0` and LF. If memory is refused, a prefix of the line may have been appended.
pub fn put_clause(out: &mut Vec<u8>, clause: &[Lit]) -> Result<(), AllocError>
    ensures ok { OnOk result (out.new.items ≡ out.old.items ++ clause_line clause.now) }
    ensures begins { Begins out.old.items out.new.items }
{
    for literal in clause {
        put_literal(out, *literal)?;
    }
    put(out, b"0\n")
}

/// Appends the header's line: `p cnf`, the number of variables and the number of clauses.
fn put_header(out: &mut Vec<u8>, vars: u64, count: u64) -> Result<(), AllocError>
    ensures ok { OnOk result (out.new.items ≡ out.old.items ++ (codes "p cnf " ++ decimal vars ++ codes " " ++ decimal count ++ codes "\n")) }
    ensures begins { Begins out.old.items out.new.items }
{
    put(out, b"p cnf ")?;
    put_number(out, vars)?;
    put(out, b" ")?;
    put_number(out, count)?;
    put(out, b"\n")
}

/// Appends the formula as DIMACS text: its header, then each clause on a line of its own.
fn put_formula(out: &mut Vec<u8>, formula: &Formula) -> Result<(), AllocError>
    ensures ok { OnOk result (out.new.items ≡ out.old.items ++ spelling formula.now) }
    ensures begins { Begins out.old.items out.new.items }
{
    put_header(out, u64::from(formula.vars()), formula.len() as u64)?;
    for i in 0..formula.len() {
        put_clause(out, formula.clause(i))?;
    }
    Ok(())
}

/// Appends the formula as DIMACS text: `p cnf`, its numbers of variables and of clauses, then each clause on a line of its own, ended by 0.
/// If memory is refused, `out` is as before.
pub fn write(formula: &Formula, out: &mut Vec<u8>) -> Result<(), AllocError>
    ensures ok { OnOk result (out.new.items ≡ out.old.items ++ spelling formula.now) }
    // The text that is written spells the formula within all limits that it fits into, so there it is read as the same formula.
    ensures fits { (L : Limits) → FitsIn L formula.now → SpellsWithin L (spelling formula.now) formula.now }
    ensures err { OnErr result (out.new.items ≡ out.old.items) }
{
    let _ = formula.vars(); // its contract says that the formula is within its limits
    let len = out.len();
    let written = put_formula(out, formula);
    if written.is_err() {
        out.truncate(len);
    }
    written
}
