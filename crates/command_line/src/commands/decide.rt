//! The command `decide`: the table of its arguments, and the request that they make.

ghost use Rattle.std.specs.Prelude.{◌≡◌, IfSome, IfNone, codes};
ghost use Rattle.command_line.specs.CommandLine.{IsInRange, Makes};
ghost use Rattle.command_line.specs.declared.request.Request.{Request};
ghost use Rattle.command_line.specs.Program.{decide_app};
ghost use Rattle.option_table.specs.Rules.{app_of_command};

use crate::commands::run_words::{
    BINARY, LAST_LIMIT, NO_WITNESS, PROGRESS, PROOF, QUIET, STATUS, any_limit_of, printing_of,
};
use crate::commands::words::{INPUT, LARGE, file_of, is_given};
use crate::request::Request;
use option_table::{CommandRules, Found, Need, Word};

/// The arguments that `decide` takes.
static RULES: CommandRules<'static> = CommandRules {
    name: "decide",
    about: "Decides a DIMACS formula, with an LRAT proof where nothing satisfies it",
    after_help: STATUS,
    words: &[
        LARGE,
        Word::Number {
            name: "limit",
            low: 1,
            high: LAST_LIMIT,
            need: Need::Optional,
            help: "How many lemmas may be learnt, from 1 to 1000000000; else any number",
        },
        PROGRESS,
        Word::LongFlag {
            name: "stats",
            help: "Print after the answer, in c lines, what the search has done",
        },
        BINARY,
        QUIET,
        NO_WITNESS,
        INPUT,
        PROOF,
    ],
};

/// The table of the arguments of `decide`. It is a function and no constant, so that proofs of its
/// callers do not unfold the table.
pub(crate) fn rules() -> CommandRules<'static>
    ensures { app_of_command result ≡ decide_app }
{
    RULES
}

/// Makes the request of the parsed arguments of `decide`; None if a required one is missing, a
/// number is out of range, or they do not go together.
pub(crate) fn asked<'a>(given: &Found<'a>) -> Option<Request<'a>>
    ensures found { IfSome result (Makes (codes "decide") given.now.rows) }
    ensures none { IfNone result ((request : Request) → Makes (codes "decide") given.now.rows request → ⊥) }
    ensures range { IfSome result IsInRange }
{
    let input = file_of(given, "INPUT")?;
    let limit = any_limit_of(given)?;
    Some(Request::Decide {
        input,
        proof: file_of(given, "PROOF"),
        limit,
        progress: is_given(given, "progress"),
        stats: is_given(given, "stats"),
        printing: printing_of(given),
        binary: is_given(given, "binary"),
    })
}
