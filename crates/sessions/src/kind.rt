//! The kinds of lines of a session's proof, and their translation to lines of LRAT text, by which they are read.

ghost use Rattle.std.specs.Prelude.{◌≡◌, OnOk, slice_index};
ghost use Rattle.sessions.specs.Lines.{body_of, is_silent as silent, kind_of, lrat_line};

use std::alloc::AllocError;

/// The kinds of lines that have numbers. Each such line is read as a line of LRAT text.
#[derive(Clone, Copy)]
pub(crate) enum StepKind {
    /// `i`: a clause is given.
    Gives,
    /// `q`: a query is asked.
    Asks,
    /// `l`: a lemma was learnt.
    Learns,
    /// `d`: lemmas are deleted.
    Deletes,
    /// `m`: the model of a query.
    Shows,
    /// `u`: the core of a query.
    Fails,
}

/// The kind of a line, by its first letter.
#[derive(Clone, Copy)]
pub(crate) enum Kind {
    /// A line that has numbers.
    Step(StepKind),
    /// `s`: the status of a query.
    Says,
    /// A line that is passed over.
    Silent,
    /// No line begins with this letter.
    Unknown,
}

/// The status that an `s` line gives a query.
#[derive(Clone, Copy)]
pub(crate) enum Status {
    Satisfiable,
    Unsatisfiable,
    Unknown,
}

/// Answers whether lines that begin with this letter are passed over.
fn is_silent(letter: u8) -> bool
    ensures { result ≡ silent letter }
{
    letter == b'w'
        || letter == b'r'
        || letter == b'f'
        || letter == b'p'
        || letter == b'c'
        || letter == b'e'
}

/// The kind of the lines that begin with this byte. Lemmas and deletions are tested first: they are most of a text.
fn kind_of_letter(letter: u8) -> Kind
    ensures { result ≡ kind_of letter }
{
    if letter == b'l' {
        Kind::Step(StepKind::Learns)
    } else if letter == b'd' {
        Kind::Step(StepKind::Deletes)
    } else if letter == b'i' {
        Kind::Step(StepKind::Gives)
    } else if letter == b'q' {
        Kind::Step(StepKind::Asks)
    } else if letter == b'm' {
        Kind::Step(StepKind::Shows)
    } else if letter == b'u' {
        Kind::Step(StepKind::Fails)
    } else if letter == b's' {
        Kind::Says
    } else if is_silent(letter) {
        Kind::Silent
    } else {
        Kind::Unknown
    }
}

/// The kind of a line, by its first byte; `Unknown` if the line is empty.
pub(crate) fn kind_of_line(line: &[u8]) -> Kind
    ensures { result ≡ kind_of (slice_index line.now 0) }
{
    if line.is_empty() {
        return Kind::Unknown;
    }
    kind_of_letter(line[0])
}

/// The bytes of a line after its letter and a space; no bytes if no space comes after the letter.
fn body(line: &[u8]) -> &[u8]
    ensures { result.now ≡ body_of line.now }
{
    if line.len() < 2 || line[1] != b' ' {
        return &[];
    }
    &line[2..]
}

/// Overwrites `spelled` with the line of LRAT text as which a line of this kind is read.
pub(crate) fn spell(kind: StepKind, line: &[u8], spelled: &mut Vec<u8>) -> Result<(), AllocError>
    ensures { OnOk result (spelled.new.items ≡ lrat_line kind line.now) }
{
    spelled.clear();
    match kind {
        StepKind::Gives => {
            spelled.extend_from_slice(body(line))?;
            spelled.extend_from_slice(b" 0")
        }
        StepKind::Asks | StepKind::Shows => {
            spelled.extend_from_slice(b"1 ")?;
            spelled.extend_from_slice(body(line))?;
            spelled.extend_from_slice(b" 0")
        }
        StepKind::Learns => spelled.extend_from_slice(body(line)),
        StepKind::Deletes => {
            spelled.extend_from_slice(b"1 ")?;
            spelled.extend_from_slice(line)
        }
        StepKind::Fails => {
            spelled.extend_from_slice(b"1 ")?;
            spelled.extend_from_slice(body(line))
        }
    }
}
