//! The command `drill`: the table of its arguments, and the request that they make.

ghost use Rattle.std.specs.Prelude.{◌≡◌, IfSome, IfNone, codes};
ghost use Rattle.command_line.specs.CommandLine.{IsInRange, Makes};
ghost use Rattle.command_line.specs.declared.request.Request.{Request};
ghost use Rattle.command_line.specs.Program.{drill_app};
ghost use Rattle.option_table.specs.Rules.{app_of_command};

use crate::commands::words::{INPUT, file_of, number_of};
use crate::request::Request;
use option_table::{CommandRules, Found, Need, Word};

/// The arguments that `drill` takes.
static RULES: CommandRules<'static> = CommandRules {
    name: "drill",
    about: "Plays drawn turns of a cluster of a DIMACS formula, and counts what goes wrong",
    after_help: "Status: 0 nothing went wrong, 1 something did, or an error",
    words: &[
        Word::Number {
            name: "seed",
            low: 0,
            high: u64::MAX,
            need: Need::Required,
            help: "What the turns are drawn from, any number of 64 bits",
        },
        Word::Number {
            name: "turns",
            low: 0,
            high: 100_000,
            need: Need::Required,
            help: "How many turns are played, from 0 to 100000",
        },
        INPUT,
    ],
};

/// The table of the arguments of `drill`. It is a function and no constant, so that proofs of its
/// callers do not unfold the table.
pub(crate) fn rules() -> CommandRules<'static>
    ensures { app_of_command result ≡ drill_app }
{
    RULES
}

/// Makes the request of the parsed arguments of `drill`; None if a required one is missing, a
/// number is out of range, or they do not go together.
pub(crate) fn asked<'a>(given: &Found<'a>) -> Option<Request<'a>>
    ensures found { IfSome result (Makes (codes "drill") given.now.rows) }
    ensures none { IfNone result ((request : Request) → Makes (codes "drill") given.now.rows request → ⊥) }
    ensures range { IfSome result IsInRange }
{
    let input = file_of(given, "INPUT")?;
    let seed = number_of(given, "seed", 0, u64::MAX)?;
    let turns = number_of(given, "turns", 0, 100_000)?;
    Some(Request::Drill {
        input,
        seed,
        turns: turns as u32,
    })
}
