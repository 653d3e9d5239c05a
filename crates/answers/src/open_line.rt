//! The line that is begun: its bytes come in pieces.

ghost use Rattle.std.specs.Prelude.{◌≡◌, ◌==◌, ◌||◌, ◌<◌, ℕ, List, [], ◌∷◌, ◌++◌, length, MatchResult, OnOk};
ghost use Rattle.dimacs.specs.inner.Rows.{Gives};
ghost use Rattle.dimacs.specs.inner.Pieces.{IsOpen};
ghost use Rattle.dimacs.specs.text.Words.{words};
ghost use Rattle.answers.specs.Grammar.{Foreign, line_of};
ghost use Rattle.answers.specs.Pieces.{naming_of};
ghost use Rattle.answers.specs.Parse.{no_memory, read_line};
ghost use Rattle.answers.specs.inner.Lines.{begun_text, RefusesPart, RefusesValues, TakesPart, TakesValues};

use crate::fault::{AnswerFault, Kind};
use crate::token_cut::{first_white, is_white, last_white};
use crate::value_lines::Values;
use dimacs::words::next_word;
use std::alloc::Global;
use std::marker::Model;

/// The kind of a line that is begun, by its first byte.
#[derive(Clone, Copy, Debug, PartialEq, Eq)]
pub(crate) enum Begun {
    /// The line is passed over.
    Passed,
    /// The line has white space alone, so far.
    Blank,
    /// The line has values, of which all have been read except the last token.
    Values,
}

/// Whether a line with this first byte is passed over, whatever follows it.
fn is_passed(byte: u8) -> bool
    ensures { result ≡ (byte == 99 || byte == 115) }
{
    byte == b'c' || byte == b's'
}

/// The kind of the line of this number, by its first byte; a fault if no line of an answer begins with it.
fn begun_by(number: u64, byte: u8) -> Result<Begun, AnswerFault>
    ensures { MatchResult result
        (λ begun. (rest : List ℕ) → line_of (begun_text begun [] ++ rest) ≡ line_of (byte ∷ rest))
        (λ fault. ((rest : List ℕ) → line_of (byte ∷ rest) ≡ Foreign) × (fault ≡ record { kind = Kind.ForeignLine; line = number })) }
{
    if is_passed(byte) {
        Ok(Begun::Passed)
    } else if byte == b'v' {
        Ok(Begun::Values)
    } else if is_white(byte) {
        Ok(Begun::Blank)
    } else {
        Err(AnswerFault::at(Kind::ForeignLine, number))
    }
}

/// Tests that the rest of a line that begins with white space is white space alone; else the line
/// of this number is foreign.
fn pass_blanks(number: u64, text: &[u8]) -> Result<(), AnswerFault>
    ensures { MatchResult result (λ _. words text.now ≡ []) (λ fault. (0 < length (words text.now)) × (fault ≡ record { kind = Kind.ForeignLine; line = number })) }
{
    if next_word(text).is_some() {
        return Err(AnswerFault::at(Kind::ForeignLine, number));
    }
    Ok(())
}

/// Reads the values in the next bytes of a `v` line. `token` holds a token that the last piece has
/// cut; it is completed first, and the last token of these bytes, which may go on, takes its place.
fn take_values(
    values: &mut Values,
    number: u64,
    token: &mut Vec<u8>,
    text: &[u8],
) -> Result<(), AnswerFault>
    ensures read { MatchResult result
        (λ _. TakesValues number values.old (token.old.items ++ text.now) values.new token.new.items)
        (λ fault. RefusesValues number values.old (token.old.items ++ text.now) fault) }
    ensures open { IsOpen token.old.items → IsOpen text.now → IsOpen token.new.items }
{
    let (end, later) = text.split_at(first_white(text));
    token.extend_from_slice(end)?;
    if later.is_empty() {
        return Ok(());
    }
    values.read(number, token)?;
    let (whole, open) = later.split_at(last_white(later));
    values.read(number, whole)?;
    token.clear();
    token.extend_from_slice(open)?;
    Ok(())
}

/// Reads further bytes of the line of this number, by its kind.
fn go_on(
    begun: Begun,
    values: &mut Values,
    number: u64,
    token: &mut Vec<u8>,
    part: &[u8],
) -> Result<(), AnswerFault>
    ensures read { MatchResult result
        (λ _. TakesPart number values.old (begun_text begun token.old.items ++ part.now) values.new (begun_text begun token.new.items))
        (λ fault. RefusesPart number values.old (begun_text begun token.old.items ++ part.now) fault) }
    ensures open { IsOpen token.old.items → IsOpen part.now → IsOpen token.new.items }
{
    match begun {
        Begun::Passed => Ok(()),
        Begun::Blank => pass_blanks(number, part),
        Begun::Values => take_values(values, number, token, part),
    }
}

/// Ends the line of this number: the token that is kept is complete now, and is read.
fn end_line(begun: Begun, values: &mut Values, number: u64, token: &[u8]) -> Result<(), AnswerFault>
    ensures { Gives no_memory (naming_of values.new) result (read_line number (begun_text begun token.now) (naming_of values.old)) }
{
    match begun {
        Begun::Passed => Ok(()),
        Begun::Blank => Ok(()),
        Begun::Values => values.read(number, token),
    }
}

/// The line that is begun, or none. Of a line with values, the last token is kept, and of other lines nothing.
#[derive(Drop)]
pub(crate) struct Line {
    /// The kind of the line; None if no byte of it was read.
    begun: Option<Begun>,
    /// The last token of a line with values, which may go on.
    token: Vec<u8>,
}

impl Model for Line {
    ghost use Rattle.std.specs.Prelude.{ℕ, List};
    ghost use Rattle.dimacs.specs.inner.Pieces.{IsOpen};
    ghost use Rattle.answers.specs.inner.Lines.{line_text};

    ghost Value = { List ℕ };

    ghost view = { λ l. line_text l.begun l.token.items };

    ghost invariant = { λ l. IsOpen l.token.items };
}

impl Line {
    /// A line of which no byte was read.
    pub(crate) fn new(alloc: Global) -> Line
        ensures { result ≡ [] }
    {
        Line {
            begun: None,
            token: Vec::new(alloc),
        }
    }

    /// Reads the first bytes of the line of this number, which have no LF; nothing changes if there are none.
    fn begin(&mut self, values: &mut Values, number: u64, part: &[u8]) -> Result<(), AnswerFault>
        requires begun { self.old ≡ [] }
        requires open { IsOpen part.now }
        ensures read { MatchResult result
            (λ _. TakesPart number values.old part.now values.new self.new)
            (λ fault. RefusesPart number values.old part.now fault) }
        ensures open { IsOpen self.new }
    {
        if part.is_empty() {
            return Ok(());
        }
        let begun = begun_by(number, part[0])?;
        self.begun = Some(begun);
        self.token.clear();
        go_on(begun, values, number, &mut self.token, &part[1..])
    }

    /// Reads the next bytes of the present line, which have no LF; the line's first byte tells its
    /// kind.
    pub(crate) fn take(
        &mut self,
        values: &mut Values,
        number: u64,
        part: &[u8],
    ) -> Result<(), AnswerFault>
        requires { IsOpen part.now }
        ensures read { MatchResult result
            (λ _. TakesPart number values.old (self.old ++ part.now) values.new self.new)
            (λ fault. RefusesPart number values.old (self.old ++ part.now) fault) }
        ensures open { IsOpen self.old × IsOpen self.new }
    {
        match self.begun {
            Some(begun) => go_on(begun, values, number, &mut self.token, part),
            None => self.begin(values, number, part),
        }
    }

    /// Reads the last token of the line of this number, which ends here. After this call no byte of the next line was read.
    pub(crate) fn end(&mut self, values: &mut Values, number: u64) -> Result<(), AnswerFault>
        ensures read { Gives no_memory (naming_of values.new) result (read_line number self.old (naming_of values.old)) }
        ensures next { OnOk result (self.new ≡ []) }
        ensures open { IsOpen self.old }
    {
        match self.begun {
            Some(begun) => {
                self.begun = None;
                end_line(begun, values, number, &self.token)
            }
            None => Ok(()),
        }
    }
}
