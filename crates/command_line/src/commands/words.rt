//! Words that several commands share, and the files and numbers that words give.

ghost use Rattle.std.specs.Prelude.{◌≡◌, ◌≤◌, ℕ, List, IfOk, IfSome, IfNone, false, true};
ghost use Rattle.std.specs.Borrow.{Bor};
ghost use Rattle.clap.specs.Words.{Text};
ghost use Rattle.command_line.specs.CommandLine.{IsNumber, NamesFile, NamesFiles, NamesFlag, NamesNothing, NamesNumber, NamesNumberOr};

use option_table::{Found, Need, Word};
use std::alloc::{AllocError, Global};

/// The word of the formula.
pub(crate) const INPUT: Word<'static> = Word::File {
    name: "INPUT",
    required: true,
    help: "The formula, a DIMACS CNF file that is read",
};

/// Whether the limits on INPUT are the large ones.
pub(crate) const LARGE: Word<'static> = Word::LongFlag {
    name: "large",
    help: "Take an INPUT of up to 99999999 variables, as many clauses, and 999999999 literals",
};

/// The word of the port.
pub(crate) const PORT: Word<'static> = Word::Number {
    name: "port",
    low: 1,
    high: 65_535,
    need: Need::Required,
    help: "The port of 127.0.0.1, from 1 to 65535",
};

/// The file that the command line gives to the argument `name`; None if it gives none.
pub(crate) fn file_of<'a>(given: &Found<'a>, name: &str) -> Option<&'a str>
    ensures { NamesFile given.now.rows name.now result }
{
    given.text(name)
}

/// The number that a text spells; None if it spells none, or one that is not from `low` to `high`.
fn number_in(text: &str, low: u64, high: u64) -> Option<u64>
    ensures some { IfSome result (IsNumber low high text.now) }
    ensures none { IfNone result ((number : ℕ) → IsNumber low high text.now number → ⊥) }
{
    match text.parse::<u64>() {
        Ok(number) if low <= number && number <= high => Some(number),
        _ => None,
    }
}

/// Whether the command line gives a value to the argument `name`.
pub(crate) fn is_named(given: &Found, name: &str) -> bool
    ensures yes { result ≡ true → NamesNothing given.now.rows name.now → ⊥ }
    ensures no { result ≡ false → NamesNothing given.now.rows name.now }
{
    match given.text(name) {
        Some(_) => true,
        None => false,
    }
}

/// Whether the command line gives the flag `name`.
pub(crate) fn is_given(given: &Found, name: &str) -> bool
    ensures { NamesFlag given.now.rows name.now result }
{
    given.flag(name)
}

/// The number that the command line gives to the option `name`; None if it gives none, or one that
/// is not from `low` to `high`.
pub(crate) fn number_of<'a>(given: &Found<'a>, name: &str, low: u64, high: u64) -> Option<u64>
    ensures found { IfSome result (NamesNumber given.now.rows name.now low high) }
    ensures none { IfNone result ((number : ℕ) → NamesNumber given.now.rows name.now low high number → ⊥) }
{
    match given.text(name) {
        Some(text) => number_in(text, low, high),
        None => None,
    }
}

/// The number that the command line gives to the option `name`, or `usual` if it gives none; None
/// if the number is not from `low` to `high`.
pub(crate) fn number_or<'a>(
    given: &Found<'a>,
    name: &str,
    low: u64,
    high: u64,
    usual: u64,
) -> Option<u64>
    requires usual { (low ≤ usual) × (usual ≤ high) }
    ensures found { IfSome result (NamesNumberOr given.now.rows name.now low high usual) }
    ensures none { IfNone result ((number : ℕ) → NamesNumberOr given.now.rows name.now low high usual number → ⊥) }
    ensures range { IfSome result (λ number. (low ≤ number) × (number ≤ high)) }
{
    match given.text(name) {
        Some(text) => number_in(text, low, high),
        None => Some(usual),
    }
}

/// The files that the command line gives to the argument `name`, in their order; None if it gives
/// none.
pub(crate) fn files_of<'a>(
    alloc: Global,
    given: &Found<'a>,
    name: &str,
) -> Result<Option<Vec<&'a str>>, AllocError>
    ensures found { IfOk result (λ found. IfSome found (λ files. NamesFiles given.now.rows name.now files.items)) }
    ensures none { IfOk result (λ found. IfNone found ((files : List (Bor Text)) → NamesFiles given.now.rows name.now files → ⊥)) }
{
    let names = match given.texts(name) {
        Some(names) => names,
        None => return Ok(None),
    };
    if names.is_empty() {
        return Ok(None);
    }
    Ok(Some(Vec::from_slice(alloc, names)?))
}
