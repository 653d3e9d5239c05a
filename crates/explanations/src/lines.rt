//! The fault of a file, read from a line of a report.

ghost use Rattle.std.specs.Prelude.{◌≡◌, IfSome, codes, nat_eq};
ghost use Rattle.std.specs.List.{starts_with};
ghost use Rattle.explanations.specs.Lines.{IsFault, IsPlace, IsSpelled, IsUnread, behind_word, first_word, unit_word};

/// The file that has a fault.
#[derive(Clone, Copy)]
pub enum File {
    /// The file that the command checks: a proof or an answer.
    Own,
    /// The input.
    Input,
    /// The cubes.
    Cubes,
    /// A foreign proof.
    Proof,
    /// A log of which a receipt is made.
    Log,
    /// The file of this number, from 1, among those that are joined.
    Joined(u64),
}

/// The unit in which a fault's place is counted.
#[derive(Clone, Copy)]
pub enum Unit {
    /// Lines of a text.
    Line,
    /// Steps of a proof in binary form.
    Step,
}

/// The fault of a file, as a line of a report has it.
#[derive(Clone, Copy)]
pub struct Fault {
    /// The file that has the fault.
    pub file: File,
    /// The unit in which `at` is counted.
    pub unit: Unit,
    /// The line or the step, from 1; 0 if there is none.
    pub at: u64,
    /// The number of the fault.
    pub number: u64,
}

/// Cuts a text at its first space. Returns the word before it, and the text after it, which is empty if there is no space.
fn cut_word(text: &str) -> (&str, &str)
    ensures word { result.0.now ≡ first_word text.now }
    ensures rest { result.1.now ≡ behind_word text.now }
{
    match text.split_once(' ') {
        Some((word, rest)) => (word, rest),
        None => (text, ""),
    }
}

/// The number that a word spells; None if it spells none below 2^64.
fn number_of(word: &str) -> Option<u64>
    ensures { IfSome result (λ n. IsSpelled n word.now) }
{
    word.parse::<u64>().ok()
}

/// The unit of a word; None if it is neither `line` nor `step`.
fn unit_of(word: &str) -> Option<Unit>
    ensures { IfSome result (λ u. word.now ≡ unit_word u) }
{
    match word {
        "line" => Some(Unit::Line),
        "step" => Some(Unit::Step),
        _ => None,
    }
}

/// The fault of a file that a text has as `line L fault N` or `step K fault N`; None if it has none.
fn fault_at(file: File, text: &str) -> Option<Fault>
    ensures place { IfSome result (λ f. IsPlace f text.now) }
    ensures file { IfSome result (λ f. f.file ≡ file) }
{
    let (unit, rest) = cut_word(text);
    let unit = unit_of(unit)?;
    let (at, rest) = cut_word(rest);
    let at = number_of(at)?;
    let (mark, rest) = cut_word(rest);
    if mark != "fault" {
        return None;
    }
    let (number, _) = cut_word(rest);
    let number = number_of(number)?;
    Some(Fault {
        file,
        unit,
        at,
        number,
    })
}

impl Fault {
    /// Reads the fault from a line of a report: its file, its place, and its number; None if it is
    /// a line of another kind.
    pub fn of(line: &str) -> Option<Fault>
        ensures { IfSome result (λ f. IsFault f line.now) }
    {
        let (mark, text) = cut_word(line);
        if mark != "c" {
            return None;
        }
        let (name, rest) = cut_word(text);
        match name {
            "input" => fault_at(File::Input, rest),
            "cubes" => fault_at(File::Cubes, rest),
            "proof" => fault_at(File::Proof, rest),
            "log" => fault_at(File::Log, rest),
            "file" => {
                let (number, rest) = cut_word(rest);
                fault_at(File::Joined(number_of(number)?), rest)
            }
            _ => fault_at(File::Own, text),
        }
    }
}

/// The number of the file that cannot be read, from a line `c file K cannot be read NAME`; None if it is a line of another kind.
pub fn unread_number(line: &str) -> Option<u64>
    ensures { IfSome result (λ n. IsUnread n line.now) }
{
    let (mark, rest) = cut_word(line);
    let (file, rest) = cut_word(rest);
    let (number, rest) = cut_word(rest);
    let (cannot, _) = cut_word(rest);
    if mark != "c" || file != "file" || cannot != "cannot" {
        return None;
    }
    number_of(number)
}

/// Whether a line names a clause of which an answer has no literal.
pub fn is_of_clause(line: &str) -> bool
    ensures { result ≡ starts_with nat_eq line.now (codes "c clause ") }
{
    line.as_bytes().starts_with(b"c clause ")
}
