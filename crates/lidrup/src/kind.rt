//! The kinds of LIDRUP lines, and the line of LRAT text that stands for a line.

ghost use Rattle.std.specs.Prelude.{◌≡◌, OnOk, slice_index};
ghost use Rattle.lidrup.specs.Lines.{body_of, is_silent as silent, kind_of, lrat_line};

use std::alloc::AllocError;

/// The kinds of lines for which a line of LRAT text can stand.
#[derive(Clone, Copy)]
pub(crate) enum StepKind {
    /// `i`: a clause is given.
    Given,
    /// `l`: a lemma was learnt.
    Learnt,
    /// `u`: the cube of the last query is closed.
    Closed,
    /// `d`: clauses are deleted.
    Deleted,
}

/// The kind of a line, by its first letter.
#[derive(Clone, Copy)]
pub(crate) enum Kind {
    Step(StepKind),
    /// `q`: a cube is asked for.
    Asked,
    /// The line has no effect.
    Silent,
    /// No line has this letter.
    Unknown,
}

/// Tells whether lines with this first letter have no effect on the log: statuses, models, weakened
/// and restored clauses, comments and the like.
fn is_silent(letter: u8) -> bool
    ensures { result ≡ silent letter }
{
    letter == b's'
        || letter == b'm'
        || letter == b'w'
        || letter == b'r'
        || letter == b'f'
        || letter == b'p'
        || letter == b'c'
        || letter == b'e'
}

/// Returns the kind of the lines with this first letter.
fn kind_of_letter(letter: u8) -> Kind
    ensures { result ≡ kind_of letter }
{
    if letter == b'i' {
        Kind::Step(StepKind::Given)
    } else if letter == b'l' {
        Kind::Step(StepKind::Learnt)
    } else if letter == b'u' {
        Kind::Step(StepKind::Closed)
    } else if letter == b'd' {
        Kind::Step(StepKind::Deleted)
    } else if letter == b'q' {
        Kind::Asked
    } else if is_silent(letter) {
        Kind::Silent
    } else {
        Kind::Unknown
    }
}

/// Returns the kind of a line, by its first letter.
pub(crate) fn kind_of_line(line: &[u8]) -> Kind
    ensures { result ≡ kind_of (slice_index line.now 0) }
{
    if line.is_empty() {
        return Kind::Unknown;
    }
    kind_of_letter(line[0])
}

/// Returns the bytes of a line after its letter and a space; none if no space follows the letter.
fn body(line: &[u8]) -> &[u8]
    ensures { result.now ≡ body_of line.now }
{
    if line.len() < 2 || line[1] != b' ' {
        return &[];
    }
    &line[2..]
}

/// Leaves in `spelled` the line of LRAT text that stands for this line, so that one parser reads
/// both formats: with a number in front or a 0 at the end, if LRAT has that in addition.
pub(crate) fn spell(kind: StepKind, line: &[u8], spelled: &mut Vec<u8>) -> Result<(), AllocError>
    ensures { OnOk result (spelled.new.items ≡ lrat_line kind line.now) }
{
    spelled.clear();
    match kind {
        StepKind::Given => {
            spelled.extend_from_slice(body(line))?;
            spelled.extend_from_slice(b" 0")
        }
        StepKind::Learnt => spelled.extend_from_slice(body(line)),
        StepKind::Closed => {
            spelled.extend_from_slice(b"1 ")?;
            spelled.extend_from_slice(body(line))
        }
        StepKind::Deleted => {
            spelled.extend_from_slice(b"1 ")?;
            spelled.extend_from_slice(line)
        }
    }
}
