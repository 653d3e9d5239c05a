//! The header of a DIMACS text: `p cnf`, the number of variables and the number of clauses. Each function reads one token, and lets the
//! next function read the rest of the line. The answer is the two numbers, or the fault, with the line's number.

ghost use Rattle.std.specs.Prelude.{◌≡◌, ◌≤◌, IfOk, Err, bytes_eq};
ghost use Rattle.dimacs.specs.text.Words.{words};
ghost use Rattle.dimacs.specs.text.Parser.{read_header, header_two, header_three, header_four, header_end};

use crate::fault::{DimacsFault, Kind};
use crate::limits::Limits;
use crate::number::natural;
use crate::words::next_word;

/// Answers whether a token is this text.
fn is_word(word: &[u8], text: &[u8]) -> bool
    ensures { result ≡ bytes_eq word.now text.now }
{
    word == text
}

/// Reads the rest of the line after the header's four tokens: any token there is the fault `BadHeader`.
fn end_of_header(line: u64, vars: u32, count: u32, text: &[u8]) -> Result<(u32, u32), DimacsFault>
    requires vars { vars ≤ 99999999 }
    requires count { count ≤ 99999999 }
    ensures value { result ≡ header_end line vars count (words text.now) }
    ensures limits { IfOk result (λ h. (h.0 ≤ 99999999) × (h.1 ≤ 99999999)) }
{
    match next_word(text) {
        None => Ok((vars, count)),
        Some(_) => Err(DimacsFault::at(Kind::BadHeader, line)),
    }
}

/// Reads the number of clauses and what follows it. A number above the limit is the fault `AboveLimit`.
fn clauses_of_header(
    limits: Limits,
    line: u64,
    vars: u32,
    text: &[u8],
) -> Result<(u32, u32), DimacsFault>
    requires { vars ≤ 99999999 }
    ensures value { result ≡ header_four limits line vars (words text.now) }
    ensures limits { IfOk result (λ h. (h.0 ≤ 99999999) × (h.1 ≤ 99999999)) }
{
    let Some((word, rest)) = next_word(text) else {
        return Err(DimacsFault::at(Kind::BadHeader, line));
    };
    let Some(count) = natural(word) else {
        return Err(DimacsFault::at(Kind::BadHeader, line));
    };
    if count > limits.clauses() {
        return Err(DimacsFault::at(Kind::AboveLimit, line));
    }
    end_of_header(line, vars, count, rest)
}

/// Reads the number of variables and what follows it. A number above the limit is the fault `AboveLimit`.
fn vars_of_header(limits: Limits, line: u64, text: &[u8]) -> Result<(u32, u32), DimacsFault>
    ensures value { result ≡ header_three limits line (words text.now) }
    ensures limits { IfOk result (λ h. (h.0 ≤ 99999999) × (h.1 ≤ 99999999)) }
{
    let Some((word, rest)) = next_word(text) else {
        return Err(DimacsFault::at(Kind::BadHeader, line));
    };
    let Some(vars) = natural(word) else {
        return Err(DimacsFault::at(Kind::BadHeader, line));
    };
    if vars > limits.vars() {
        return Err(DimacsFault::at(Kind::AboveLimit, line));
    }
    clauses_of_header(limits, line, vars, rest)
}

/// Reads the word `cnf` and what follows it.
fn format_of_header(limits: Limits, line: u64, text: &[u8]) -> Result<(u32, u32), DimacsFault>
    ensures value { result ≡ header_two limits line (words text.now) }
    ensures limits { IfOk result (λ h. (h.0 ≤ 99999999) × (h.1 ≤ 99999999)) }
{
    let Some((word, rest)) = next_word(text) else {
        return Err(DimacsFault::at(Kind::BadHeader, line));
    };
    if !is_word(word, b"cnf") {
        return Err(DimacsFault::at(Kind::BadHeader, line));
    }
    vars_of_header(limits, line, rest)
}

/// Reads the header's two numbers from its line: the number of variables, and the number of clauses.
#[tactic(auto, unfolding(crate::specs::text::Parser::read_header))]
pub(crate) fn read_header(limits: Limits, line: u64, text: &[u8]) -> Result<(u32, u32), DimacsFault>
    ensures value { result ≡ read_header limits line (words text.now) }
    ensures limits { IfOk result (λ h. (h.0 ≤ 99999999) × (h.1 ≤ 99999999)) }
{
    let Some((word, rest)) = next_word(text) else {
        return Err(DimacsFault::at(Kind::BadHeader, line));
    };
    if !is_word(word, b"p") {
        return Err(DimacsFault::at(Kind::NoHeader, line));
    }
    format_of_header(limits, line, rest)
}
