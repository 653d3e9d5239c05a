//! What the words of a solver ask for, word by word.

ghost use Rattle.std.specs.Prelude.{◌≡◌, ◌≤◌, ◌++◌, IfOk, IfSome, OnOk, map, option_map, string_bytes};
ghost use Rattle.command_line.specs.SolverWords.{asked, asked_of, by_meaning as by_this_meaning, by_word as by_this_word, digit_after, is_name as is_named, is_off as is_off_word, limit_of as limit_of_word, name_of, step, told_all, told_by, told_by_word, told_of, told_of_limit, told_of_name, value_of, with_limit as with_this_limit, with_name as with_this_name};

use crate::solver_words::table::{Meaning, Why, meaning_of};
use crate::solver_words::told::put_told;
use std::alloc::AllocError;

/// The greatest limit of lemmas.
const MOST: u64 = 1_000_000_000;

/// What the next word is.
#[derive(Clone, Copy, Debug, PartialEq, Eq)]
pub enum Next {
    /// A word, or the name of a file.
    Word,
    /// The limit of lemmas.
    Limit,
    /// A value that is passed over.
    Value,
    /// The name of a file, as all that follow (`--`).
    Name,
}

/// What the words of a solver ask for.
#[derive(Clone, Copy)]
pub struct Solving<'a> {
    /// The first file that is named: the formula.
    pub input: Option<&'a str>,
    /// The second one: the proof, or MiniSat's result.
    pub second: Option<&'a str>,
    /// The most lemmas that may be learnt, from 1 to 1,000,000,000; `None` for any number.
    pub limit: Option<u64>,
    /// Whether `c` lines are left out of what is printed.
    pub quiet: bool,
    /// Whether an assignment is printed.
    pub witness: bool,
    /// Whether it is asked what a solver can do, in place of an answer.
    pub helps: bool,
    /// What the next word is.
    pub(crate) next: Next,
}

/// What is asked for before the first word.
const BEGUN: Solving<'static> = Solving {
    input: None,
    second: None,
    limit: None,
    quiet: false,
    witness: true,
    helps: false,
    next: Next::Word,
};

/// The number that a decimal digit behind a number makes; None if the byte is no digit, or the number is above every limit.
fn digit_behind(number: u64, byte: u8) -> Option<u64>
    requires { number ≤ 1000000000 }
    ensures { result ≡ digit_after number byte }
{
    if !byte.is_ascii_digit() {
        return None;
    }
    let longer = 10 * number + u64::from(byte - b'0');
    if longer <= MOST { Some(longer) } else { None }
}

/// The limit that a text spells in decimal digits; None if it spells none from 1 to 1,000,000,000.
fn limit_of(text: &str) -> Option<u64>
    ensures { result ≡ limit_of_word text.now }
{
    let mut number = 0;
    for byte in text.as_bytes() {
        number = digit_behind(number, *byte)?;
    }
    if number == 0 { None } else { Some(number) }
}

/// Whether the value that is joined to a word turns it off.
fn is_off(value: Option<&str>) -> bool
    ensures { result ≡ is_off_word (option_map (λ v. v.now) value.entry) }
{
    match value {
        Some(value) => value == "0" || value == "false" || value == "no",
        None => false,
    }
}

/// Whether a word is the name of a file: standard input, or one that begins otherwise than words do.
fn is_name(word: &str) -> bool
    ensures { result ≡ is_named word.now }
{
    word == "-" || !word.starts_with('-')
}

/// Cuts a word at its first `=`: the name, and the value behind it, if there is one.
fn name_and_value(word: &str) -> (&str, Option<&str>)
    ensures name { result.0.now ≡ name_of word.now }
    ensures value { option_map (λ v. v.now) result.1 ≡ value_of word.now }
{
    match word.split_once('=') {
        Some((name, value)) => (name, Some(value)),
        None => (word, None),
    }
}

impl<'a> Solving<'a> {
    /// Takes a word as the name of a file. Answers what is told of it.
    fn with_name(self, name: &'a str) -> (Solving<'a>, Option<Why>)
        ensures asks { asked_of result.0 ≡ with_this_name (asked_of self.entry) name.now }
        ensures told { result.1 ≡ told_of_name (asked_of self.entry) }
    {
        match (self.input, self.second) {
            (None, _) => (
                Solving {
                    input: Some(name),
                    ..self
                },
                None,
            ),
            (Some(_), None) => (
                Solving {
                    second: Some(name),
                    ..self
                },
                None,
            ),
            _ => (self, Some(Why::OtherFile)),
        }
    }

    /// Takes a text as the limit of lemmas. Answers what is told of it.
    fn with_limit(self, text: &str) -> (Solving<'a>, Option<Why>)
        ensures asks { asked_of result.0 ≡ with_this_limit (asked_of self.entry) text.now }
        ensures told { result.1 ≡ told_of_limit text.now }
    {
        let next = Solving {
            next: Next::Word,
            ..self
        };
        match limit_of(text) {
            Some(limit) => (
                Solving {
                    limit: Some(limit),
                    ..next
                },
                None,
            ),
            None => (next, Some(Why::OutOfRange)),
        }
    }

    /// Takes a word of this meaning, with the value that is joined to it. Answers what is told of the word.
    fn by_meaning(self, meaning: Meaning, value: Option<&str>) -> (Solving<'a>, Option<Why>)
        ensures asks { asked_of result.0 ≡ by_this_meaning (asked_of self.entry) meaning (option_map (λ v. v.now) value.entry) }
        ensures told { result.1 ≡ told_by meaning (option_map (λ v. v.now) value.entry) }
    {
        match (meaning, value) {
            (Meaning::Quiet(on), _) => (
                Solving {
                    quiet: on != is_off(value),
                    ..self
                },
                None,
            ),
            (Meaning::Witness(on), _) => (
                Solving {
                    witness: on != is_off(value),
                    ..self
                },
                None,
            ),
            (Meaning::Help, _) => (
                Solving {
                    helps: !is_off(value),
                    ..self
                },
                None,
            ),
            (Meaning::Limit, Some(value)) => self.with_limit(value),
            (Meaning::Limit, None) => (
                Solving {
                    next: Next::Limit,
                    ..self
                },
                None,
            ),
            (Meaning::Known, _) => (self, None),
            (Meaning::Told(why), _) => (self, Some(why)),
            (Meaning::Valued(why), Some(_)) => (self, Some(why)),
            (Meaning::Valued(why), None) => (
                Solving {
                    next: Next::Value,
                    ..self
                },
                Some(why),
            ),
        }
    }

    /// Takes a word that is no value of the word before it. Answers what is told of the word.
    fn by_word(self, word: &'a str) -> (Solving<'a>, Option<Why>)
        ensures asks { asked_of result.0 ≡ by_this_word (asked_of self.entry) word.now }
        ensures told { result.1 ≡ told_by_word (asked_of self.entry) word.now }
    {
        if word == "--" {
            return (
                Solving {
                    next: Next::Name,
                    ..self
                },
                None,
            );
        }
        if is_name(word) {
            return self.with_name(word);
        }
        let (name, value) = name_and_value(word);
        self.by_meaning(meaning_of(name), value)
    }

    /// Takes the next word. Answers what is told of it.
    fn taken(self, word: &'a str) -> (Solving<'a>, Option<Why>)
        ensures asks { asked_of result.0 ≡ step (asked_of self.entry) word.now }
        ensures told { result.1 ≡ told_of (asked_of self.entry) word.now }
    {
        match self.next {
            Next::Word => self.by_word(word),
            Next::Limit => self.with_limit(word),
            Next::Value => (
                Solving {
                    next: Next::Word,
                    ..self
                },
                None,
            ),
            Next::Name => self.with_name(word),
        }
    }
}

/// Reads the words of a solver, behind its name. Appends a `c` line for each word that is passed over, if that is told. If memory is
/// refused, `out` may have some of them.
pub fn read_words<'a>(out: &mut Vec<u8>, words: &'a [String]) -> Result<Solving<'a>, AllocError>
    ensures asks { IfOk result (λ s. asked_of s ≡ asked (map string_bytes words.now)) }
    ensures told { OnOk result (out.new.items ≡ out.old.items ++ told_all (map string_bytes words.now)) }
{
    let mut solving = BEGUN;
    for word in words {
        let word = word.as_str();
        let (next, told) = solving.taken(word);
        if let Some(why) = told {
            put_told(out, word, why)?;
        }
        solving = next;
    }
    Ok(solving)
}
