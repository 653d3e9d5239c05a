//! The header of an iCNF text: `p inccnf`. Each function reads one token, and lets the next function read the rest of the line.

ghost use Rattle.std.specs.Prelude.{◌≡◌, bytes_eq};
ghost use Rattle.dimacs.specs.text.Words.{words};
ghost use Rattle.icnf.specs.Parser.{read_header, header_two, header_end};

use crate::fault::{IcnfFault, Kind};
use dimacs::words::next_word;

/// Answers whether a token is this text.
fn is_word(word: &[u8], text: &[u8]) -> bool
    ensures { result ≡ bytes_eq word.now text.now }
{
    word == text
}

/// Reads the rest of the line after the header's two tokens: any token there is the fault `BadHeader`.
fn end_of_header(line: u64, text: &[u8]) -> Result<(), IcnfFault>
    ensures { result ≡ header_end line (words text.now) }
{
    match next_word(text) {
        None => Ok(()),
        Some(_) => Err(IcnfFault {
            kind: Kind::BadHeader,
            line,
        }),
    }
}

/// Reads the word `inccnf` and what follows it.
fn format_of_header(line: u64, text: &[u8]) -> Result<(), IcnfFault>
    ensures { result ≡ header_two line (words text.now) }
{
    let Some((word, rest)) = next_word(text) else {
        return Err(IcnfFault {
            kind: Kind::BadHeader,
            line,
        });
    };
    if !is_word(word, b"inccnf") {
        return Err(IcnfFault {
            kind: Kind::BadHeader,
            line,
        });
    }
    end_of_header(line, rest)
}

/// Reads the line of the header, which is `p inccnf`.
#[tactic(auto, unfolding(crate::specs::Parser::read_header))]
pub fn read_header(line: u64, text: &[u8]) -> Result<(), IcnfFault>
    ensures { result ≡ read_header line (words text.now) }
{
    let Some((word, rest)) = next_word(text) else {
        return Err(IcnfFault {
            kind: Kind::BadHeader,
            line,
        });
    };
    if !is_word(word, b"p") {
        return Err(IcnfFault {
            kind: Kind::NoHeader,
            line,
        });
    }
    format_of_header(line, rest)
}
