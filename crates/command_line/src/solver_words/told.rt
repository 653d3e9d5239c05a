//! The `c` lines of the words that are passed over.

ghost use Rattle.std.specs.Prelude.{◌≡◌, ◌++◌, OnOk, map};
ghost use Rattle.command_line.specs.SolverWords.{line_of, shown as shown_byte, text_of};

use crate::solver_words::table::Why;
use std::alloc::AllocError;

impl Why {
    /// The words that tell why a word is passed over.
    fn text(self) -> &'static str
        ensures { result.now ≡ text_of self }
    {
        match self {
            Why::Unknown => "no such word is known",
            Why::Script => "only the script satcluster-solver has it",
            Why::Time => "only the script satcluster-solver limits the time",
            Why::Counts => "conflicts and decisions are not counted",
            Why::Files => "no such file is written",
            Why::Output => "the answer is on standard output",
            Why::Solution => "no solution is read",
            Why::Format => "a proof is LRAT, as text",
            Why::OutOfRange => "a limit is a number from 1 to 1000000000",
            Why::OtherFile => "two files are named already",
        }
    }
}

/// The byte that is printed for a byte of a word: itself, or `?` if it is not in printable ASCII. So no word ends a line.
fn shown(byte: u8) -> u8
    ensures { result ≡ shown_byte byte }
{
    if b' ' <= byte && byte <= b'~' {
        byte
    } else {
        b'?'
    }
}

/// Appends a word as it is printed. If memory is refused, `out` may have a prefix of it.
fn put_word(out: &mut Vec<u8>, word: &str) -> Result<(), AllocError>
    ensures { OnOk result (out.new.items ≡ out.old.items ++ map shown_byte word.now) }
{
    for byte in word.as_bytes() {
        out.push(shown(*byte))?;
    }
    Ok(())
}

/// Appends the line of a word that is passed over. If memory is refused, `out` may have a prefix of it.
pub(crate) fn put_told(out: &mut Vec<u8>, word: &str, why: Why) -> Result<(), AllocError>
    ensures { OnOk result (out.new.items ≡ out.old.items ++ line_of word.now why) }
{
    out.extend_from_slice(b"c ")?;
    put_word(out, word)?;
    out.extend_from_slice(b" is passed over: ")?;
    out.extend_from_slice(why.text().as_bytes())?;
    out.extend_from_slice(b"\n")
}
