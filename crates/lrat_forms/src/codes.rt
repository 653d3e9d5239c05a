//! Writers of the numbers of a step in binary form. If memory is refused, each may have appended a prefix of its bytes.

ghost use Rattle.std.specs.Prelude.{◌∷◌, [], ◌^◌, ◌<◌, All, OnOk, map};
ghost use Rattle.std.specs.List.{flat_map};
ghost use Rattle.dimacs.specs.logic.Literal.{index_of};
ghost use Rattle.lrat_text.specs.Grammar.{IsClauseNumber, IsGroup};
ghost use Rattle.lrat_binary.specs.Grammar.{clause_code, group_codes};
ghost use Rattle.lrat_forms.specs.inner.Codes.{Adds, AddsNumber};

use dimacs::Lit;
use lrat_text::Groups;
use std::alloc::AllocError;

/// Appends a number in unsigned LEB128: seven bits a byte, the lowest first.
pub(crate) fn put_code(out: &mut Vec<u8>, code: u64) -> Result<(), AllocError>
    ensures { OnOk result (AddsNumber out.old.items out.new.items code) }
{
    let mut rest = code;
    while rest >= 128 {
        out.push((rest % 128) as u8 + 128)?;
        rest /= 128;
    }
    out.push(rest as u8)?;
    Ok(())
}

/// Appends the codes of literals: 2v for the variable v, 2v + 1 if it is negated.
pub(crate) fn put_literals(out: &mut Vec<u8>, lits: &[Lit]) -> Result<(), AllocError>
    ensures { OnOk result (Adds out.old.items out.new.items (map index_of lits.now)) }
{
    for lit in lits {
        put_code(out, lit.index() as u64)?;
    }
    Ok(())
}

/// Appends the codes of clause numbers: 2n for the number n.
pub(crate) fn put_numbers(out: &mut Vec<u8>, numbers: &[u64]) -> Result<(), AllocError>
    requires { All IsClauseNumber numbers.now }
    ensures { OnOk result (Adds out.old.items out.new.items (map clause_code numbers.now)) }
{
    for number in numbers {
        put_code(out, 2 * *number)?;
    }
    Ok(())
}

/// Appends the codes of a group: 2n + 1 for its candidate n, then the codes of its hints.
fn put_group(out: &mut Vec<u8>, candidate: u64, hints: &[u64]) -> Result<(), AllocError>
    requires { IsGroup (candidate, hints.now) }
    ensures { OnOk result (Adds out.old.items out.new.items (group_codes (candidate, hints.now))) }
{
    put_code(out, 2 * candidate + 1)?;
    put_numbers(out, hints)
}

/// Appends the codes of all groups.
pub(crate) fn put_groups(out: &mut Vec<u8>, groups: &Groups) -> Result<(), AllocError>
    requires { All IsGroup groups.now }
    ensures { OnOk result (Adds out.old.items out.new.items (flat_map group_codes groups.now)) }
{
    for i in 0..groups.len() {
        let (candidate, hints) = groups.get(i);
        put_group(out, candidate, hints)?;
    }
    Ok(())
}
