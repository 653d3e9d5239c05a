//! The names of the files of receipts: those on the command line, or those that standard input lists, one a line.

ghost use Rattle.std.specs.Prelude.{◌≡◌, ◌++◌, ◌∷◌, ℕ, List, map, codes, IfOk, IfErr, OnOk};
ghost use Rattle.commands.specs.Names.{OfNames, lists, names_behind, names_of};
ghost use Rattle.commands.specs.Known.{HoldsOf};
ghost use Rattle.commands.specs.Refusals.{IsRefusedAs};

use crate::disk::Disk;
use crate::whole_source::{out_of_memory, read_bytes};
use reports::Refusal;
use std::alloc::{AllocError, Global};
use std::mem;

/// Takes the next byte of a list of names: an LF ends the name `begun`, which is appended to `names`; another byte is appended to `begun`.
fn put_byte(
    alloc: Global,
    names: &mut Vec<Vec<u8>>,
    begun: &mut Vec<u8>,
    byte: u8,
) -> Result<(), AllocError>
    ensures { OnOk result ((rest : List ℕ) → map (λ n. n.items) names.new.items ++ names_behind begun.new.items rest
        ≡ map (λ n. n.items) names.old.items ++ names_behind begun.old.items (byte ∷ rest)) }
{
    if byte != b'\n' {
        begun.push(byte)?;
        return Ok(());
    }
    let name = mem::replace(begun, Vec::new(alloc));
    names.push(name)?;
    Ok(())
}

/// Answers the names in a list, one a line; the last line needs no LF.
fn names_in(alloc: Global, list: &[u8]) -> Result<Vec<Vec<u8>>, AllocError>
    ensures { IfOk result (λ names. map (λ n. n.items) names.items ≡ names_of list.now) }
{
    let mut names = Vec::new(alloc);
    let mut begun = Vec::new(alloc);
    for byte in list {
        put_byte(alloc, &mut names, &mut begun, *byte)?;
    }
    if begun.is_empty() {
        return Ok(names);
    }
    names.push(begun)?;
    Ok(names)
}

/// Copies the names that the command line gives.
fn names_given(alloc: Global, given: &[&str]) -> Result<Vec<Vec<u8>>, AllocError>
    ensures { IfOk result (λ names. map (λ n. n.items) names.items ≡ map (λ n. n.now) given.now) }
{
    let mut names = Vec::new(alloc);
    for name in given {
        names.push(Vec::from_slice(alloc, name.as_bytes())?)?;
    }
    Ok(names)
}

/// Reads standard input to its end, and answers the names that it lists. It errs if it cannot be read or memory runs out.
fn names_listed<D: Disk>(disk: &D) -> Result<Vec<Vec<u8>>, Refusal>
    ensures names { IfOk result (λ names. HoldsOf (D.holds disk.now (codes "-")) (λ list. map (λ n. n.items) names.items ≡ names_of list)) }
    ensures refused { IfErr result (IsRefusedAs Refusal.Proof) }
{
    let mut pieces = disk.open("-", Refusal::Proof)?;
    let list = read_bytes(disk.alloc(), &mut pieces, 0)?;
    names_in(disk.alloc(), &list).map_err(out_of_memory)
}

/// Whether standard input lists the names: whether `-` is the only name.
pub(crate) fn is_list(names: &[&str]) -> bool
    ensures { result ≡ lists (map (λ n. n.now) names.now) }
{
    names.len() == 1 && names[0] == "-"
}

/// Answers the names on the command line, or those that standard input lists if `-` is the only one. It errs if standard input cannot be
/// read or memory runs out.
pub(crate) fn names_of_receipts<D: Disk>(disk: &D, names: &[&str]) -> Result<Vec<Vec<u8>>, Refusal>
    ensures names { IfOk result (λ all. OfNames (D.holds disk.now) (map (λ n. n.now) names.now) (λ want. map (λ n. n.items) all.items ≡ want)) }
    ensures refused { IfErr result (IsRefusedAs Refusal.Proof) }
{
    if is_list(names) {
        return names_listed(disk);
    }
    names_given(disk.alloc(), names).map_err(out_of_memory)
}
