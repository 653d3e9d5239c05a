//! The `c` lines that `join` and `cover` print of their files and leaves.

ghost use Rattle.std.specs.Prelude.{◌≡◌, ◌++◌, ◌+◌, ◌<◌, ◌^◌, OnOk, flat_map, All, codes, decimal};
ghost use Rattle.leaves.specs.Notes.{fault_said, missing_line, missing_text, name_text, note_text, said, shown_byte};

use reports::put_number;
use std::alloc::AllocError;

/// The hexadecimal digits, by their values.
const HEX: &[u8] = b"0123456789ABCDEF";

/// What the line of a file says of the file.
#[derive(Clone, Copy, Debug, PartialEq, Eq)]
pub enum Note {
    /// The file's first fault has this number, in this line, from 1.
    Fault { line: u64, number: u8 },
    /// The file is binary, and its first fault has this number, in this step, from 1.
    StepFault { step: u64, number: u8 },
    /// The file has no fault, and closes no open leaf.
    ClosesNothing,
    /// The file cannot be opened, or cannot be read to its end.
    Unread,
    /// The file is no receipt: this line, from 1, is not one of a receipt, or the file ends in this line.
    NoReceipt { line: u64 },
    /// The file is a receipt over another formula.
    OtherFormula,
    /// The file has more bytes than `cover` reads.
    TooLong,
}

/// Appends a byte of a file's name: as it is if it is printable ASCII except `%`, and else as `%` and two hexadecimal digits.
fn put_byte(out: &mut Vec<u8>, byte: u8) -> Result<(), AllocError>
    ensures { OnOk result (out.new.items ≡ out.old.items ++ shown_byte byte) }
{
    if byte >= 33 && byte <= 126 && byte != b'%' {
        out.push(byte)?;
        return Ok(());
    }
    out.push(b'%')?;
    out.push(HEX[byte as usize / 16])?;
    out.push(HEX[byte as usize % 16])?;
    Ok(())
}

/// Appends a file's name, escaped, so that no name can print a line of its own.
fn put_name(out: &mut Vec<u8>, name: &[u8]) -> Result<(), AllocError>
    ensures { OnOk result (out.new.items ≡ out.old.items ++ name_text name.now) }
{
    for byte in name {
        put_byte(out, *byte)?;
    }
    Ok(())
}

/// Appends a fault: the words `place`, the line or step `at`, from 1, and the fault's number.
fn put_fault(out: &mut Vec<u8>, place: &[u8], at: u64, number: u8) -> Result<(), AllocError>
    ensures { OnOk result (out.new.items ≡ out.old.items ++ fault_said place.now at number) }
{
    out.extend_from_slice(place)?;
    put_number(out, at)?;
    out.extend_from_slice(b" fault ")?;
    put_number(out, u64::from(number))
}

/// Appends the words, and then the number `at`.
fn put_at(out: &mut Vec<u8>, words: &[u8], at: u64) -> Result<(), AllocError>
    ensures { OnOk result (out.new.items ≡ out.old.items ++ (words.now ++ decimal at)) }
{
    out.extend_from_slice(words)?;
    put_number(out, at)
}

/// Appends what a note says of a file, in words.
fn put_said(out: &mut Vec<u8>, note: Note) -> Result<(), AllocError>
    ensures { OnOk result (out.new.items ≡ out.old.items ++ said note) }
{
    match note {
        Note::Fault { line, number } => put_fault(out, b" line ", line, number),
        Note::StepFault { step, number } => put_fault(out, b" step ", step, number),
        Note::ClosesNothing => out.extend_from_slice(b" closes nothing"),
        Note::Unread => out.extend_from_slice(b" cannot be read"),
        Note::NoReceipt { line } => put_at(out, b" no receipt at line ", line),
        Note::OtherFormula => out.extend_from_slice(b" of another formula"),
        Note::TooLong => out.extend_from_slice(b" too long"),
    }
}

/// Appends the line of a file: the file's number among the names, from 1, the note, and the name.
pub fn put_note(out: &mut Vec<u8>, file: u64, note: Note, name: &[u8]) -> Result<(), AllocError>
    ensures { OnOk result (out.new.items ≡ out.old.items ++ note_text file note name.now) }
{
    out.extend_from_slice(b"c file ")?;
    put_number(out, file)?;
    put_said(out, note)?;
    out.extend_from_slice(b" ")?;
    put_name(out, name)?;
    out.extend_from_slice(b"\n")
}

/// Appends the line of the missing leaf at the index `place`, from 0. Appends nothing if the leaf's number is above 64 bits.
fn put_leaf(out: &mut Vec<u8>, place: usize) -> Result<(), AllocError>
    ensures { OnOk result (place + 1 < 2 ^ 64 → out.new.items ≡ out.old.items ++ missing_line place) }
{
    if place == usize::MAX {
        return Ok(());
    }
    out.extend_from_slice(b"c leaf ")?;
    put_number(out, place as u64 + 1)?;
    out.extend_from_slice(b" missing\n")
}

/// Appends a line for each of the missing leaves, by their indices, from 0.
pub fn put_missing(out: &mut Vec<u8>, places: &[usize]) -> Result<(), AllocError>
    ensures { OnOk result (All (λ p. p + 1 < 2 ^ 64) places.now → out.new.items ≡ out.old.items ++ missing_text places.now) }
{
    for place in places {
        put_leaf(out, *place)?;
    }
    Ok(())
}
