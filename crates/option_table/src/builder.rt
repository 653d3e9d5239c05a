//! The builder of `clap`'s parser from a table of rules.

ghost use Rattle.std.specs.Prelude.{◌≡◌, IfOk, false};
ghost use Rattle.clap.specs.Words.{app_of, rule_of, with_rule, with_subcommand};
ghost use Rattle.option_table.specs.Rules.{app_of_command, app_of_program, rule_of_number, rule_of_word};

use crate::rule_table::{CommandRules, Need, ProgramRules, Word};
use clap::builder::ValueParser;
use clap::{Arg, ArgAction, Command};
use std::alloc::{AllocError, Global};

/// Makes `clap`'s argument of an option `--name N`, a number from `low` to `high`, without its help
/// text.
fn number<'a>(alloc: Global, name: &'a str, low: u64, high: u64, need: Need<'a>) -> Arg<'a>
    ensures rule { rule_of result ≡ rule_of_number name.entry.now low high need.entry }
    ensures global { result.global ≡ false }
{
    let arg = Arg::new(alloc, name)
        .long(name)
        .action(ArgAction::Set)
        .value_parser(ValueParser::unsigned(low, high));
    match need {
        Need::Required => arg.required(true),
        Need::Optional => arg,
        Need::Usual(text) => arg.default_value(text),
    }
}

/// Makes `clap`'s argument of a word of the table, without its help text.
fn bare<'a>(alloc: Global, word: Word<'a>) -> Arg<'a>
    ensures rule { rule_of result ≡ rule_of_word word.entry }
    ensures global { result.global ≡ false }
{
    match word {
        Word::File { name, required, .. } => Arg::new(alloc, name)
            .action(ArgAction::Set)
            .required(required),
        Word::Files { name, .. } => Arg::new(alloc, name)
            .action(ArgAction::Append)
            .required(true),
        Word::NamedFile { name, required, .. } => Arg::new(alloc, name)
            .long(name)
            .action(ArgAction::Set)
            .required(required),
        Word::Number {
            name,
            low,
            high,
            need,
            ..
        } => number(alloc, name, low, high, need),
        Word::Flag { name, letter, .. } => Arg::new(alloc, name)
            .short(letter)
            .action(ArgAction::SetTrue),
        Word::LongFlag { name, .. } => Arg::new(alloc, name).long(name).action(ArgAction::SetTrue),
    }
}

/// The help text of a word.
fn help_of<'a>(word: Word<'a>) -> &'a str {
    match word {
        Word::File { help, .. } => help,
        Word::Files { help, .. } => help,
        Word::NamedFile { help, .. } => help,
        Word::Number { help, .. } => help,
        Word::Flag { help, .. } => help,
        Word::LongFlag { help, .. } => help,
    }
}

/// Adds the argument of one more word to a command.
fn with_word<'a>(
    alloc: Global,
    command: Command<'a>,
    word: Word<'a>,
) -> Result<Command<'a>, AllocError>
    ensures { IfOk result (λ c. app_of c ≡ with_rule (app_of command.entry) (rule_of_word word.entry)) }
{
    command.arg(bare(alloc, word).help(help_of(word)))
}

/// Makes `clap`'s command of the rules of a command.
fn command_of<'a>(alloc: Global, rules: &CommandRules<'a>) -> Result<Command<'a>, AllocError>
    ensures { IfOk result (λ c. app_of c ≡ app_of_command rules.now) }
{
    let mut command = Command::new(alloc, rules.name)
        .about(rules.about)
        .after_help(rules.after_help);
    for word in rules.words {
        command = with_word(alloc, command, *word)?;
    }
    Ok(command)
}

/// Adds one more command to a program.
fn with_command<'a>(
    alloc: Global,
    program: Command<'a>,
    rules: &CommandRules<'a>,
) -> Result<Command<'a>, AllocError>
    ensures { IfOk result (λ c. app_of c ≡ with_subcommand (app_of program.entry) (app_of_command rules.now).top) }
{
    let command = command_of(alloc, rules)?;
    program.subcommand(command)
}

/// Makes `clap`'s command of the whole program, with a subcommand for each of its commands.
pub(crate) fn program_of<'a, 'r>(
    alloc: Global,
    rules: &ProgramRules<'a, 'r>,
) -> Result<Command<'a>, AllocError>
    ensures { IfOk result (λ c. app_of c ≡ app_of_program rules.now) }
{
    let mut program = Command::new(alloc, rules.name)
        .version(rules.version)
        .about(rules.about)
        .after_help(rules.after_help)
        .subcommand_required(true);
    for command in rules.commands {
        program = with_command(alloc, program, command)?;
    }
    Ok(program)
}
