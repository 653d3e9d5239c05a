//! The parser of words, by the rules of a program.

ghost use Rattle.std.specs.Prelude.{◌≡◌, List, [], IfErr, IfOk, Some, map, true};
ghost use Rattle.clap.specs.Words.{Row, Text, app_of, fault_of, is_simple_and_free, kind_of, subcommand_of, subcommand_rows_of, takes};
ghost use Rattle.option_table.specs.Refusals.{IsRefusalOf};
ghost use Rattle.option_table.specs.inner.ClapErrors.{StandsFor};
ghost use Rattle.option_table.specs.Rules.{app_of_program};

use crate::builder::program_of;
use crate::found::Found;
use crate::rule_table::ProgramRules;
use clap::Error;
use clap::error::ErrorKind;
use std::alloc::{AllocError, Global};

/// Why words are refused.
#[derive(Debug, Drop)]
pub enum Refusal {
    /// Help was asked for, or the version: the text to print.
    Help(String),
    /// The rules do not take the words.
    Refused,
    /// Memory was refused.
    NoMemory,
}

impl From<AllocError> for Refusal {
    ghost use Rattle.option_table.specs.declared.parser.Refusal.TheVariants.{NoMemory};

    ghost from_gives = { λ _ e. e ≡ NoMemory };

    fn from(_e: AllocError) -> Refusal {
        Refusal::NoMemory
    }
}

/// The refusal of an error of `clap`: help or version as a text to print, refused memory, or refused words.
fn refusal_of(alloc: Global, error: &Error) -> Refusal
    ensures { StandsFor (kind_of error.now) result }
{
    match error.kind() {
        ErrorKind::DisplayHelp | ErrorKind::DisplayVersion => match error.to_string(alloc) {
            Ok(text) => Refusal::Help(text),
            Err(_) => Refusal::NoMemory,
        },
        ErrorKind::OutOfMemory => Refusal::NoMemory,
        _ => Refusal::Refused,
    }
}

/// Parses the words by the rules of a program; the first word is the program's name. Returns the command and its arguments, or why the
/// words are refused.
pub fn parse<'a, 'r>(
    alloc: Global,
    program: &ProgramRules<'a, 'r>,
    words: &'a [&'a str],
) -> Result<Found<'a>, Refusal>
    requires { is_simple_and_free (app_of_program program.now) ≡ true }
    ensures met { IfOk result (λ found. subcommand_of (app_of_program program.now) (map (λ w. w.now) words.now) ≡ Some (found.name, found.rows)) }
    ensures taken { IfOk result (λ _. fault_of (app_of_program program.now) (map (λ w. w.now) words.now) ≡ []) }
    // Words that the rules take, and that name a command, are refused only if memory is.
    ensures complete { (met : Text × List Row) → takes (app_of_program program.now) (map (λ w. w.now) words.now) ≡ true
        → subcommand_of (app_of_program program.now) (map (λ w. w.now) words.now) ≡ Some met → IfErr result (λ f. f ≡ Refusal.NoMemory) }
    ensures refused { IfErr result (IsRefusalOf (app_of_program program.now) (map (λ w. w.now) words.now)) }
{
    let matches = match program_of(alloc, program)?.try_get_matches_from(words) {
        Ok(matches) => matches,
        Err(error) => return Err(refusal_of(alloc, &error)),
    };
    match matches.subcommand() {
        Some(_) => Ok(Found::new(matches)),
        None => Err(Refusal::Refused),
    }
}
