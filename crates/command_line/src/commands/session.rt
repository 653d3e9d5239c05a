//! The command `session`: the table of its arguments, and the request that they make.

ghost use Rattle.std.specs.Prelude.{◌≡◌, IfSome, IfNone, codes};
ghost use Rattle.command_line.specs.CommandLine.{IsInRange, Makes};
ghost use Rattle.command_line.specs.declared.request.Request.{Request};
ghost use Rattle.command_line.specs.Program.{session_app};
ghost use Rattle.option_table.specs.Rules.{app_of_command};

use crate::commands::run_words::{LAST_LIMIT, any_limit_of, printing_of};
use crate::commands::words::{LARGE, file_of};
use crate::request::Request;
use option_table::{CommandRules, Found, Need, Word};

/// The arguments that `session` takes.
static RULES: CommandRules<'static> = CommandRules {
    name: "session",
    about: "Answers queries between which clauses are given, with a LIDRUP proof of all answers",
    after_help: "Status: that of the last answer, 10, 20 or 0; 0 without one, 1 an error",
    words: &[
        LARGE,
        Word::Number {
            name: "limit",
            low: 1,
            high: LAST_LIMIT,
            need: Need::Optional,
            help: "How many lemmas may be learnt in a query, from 1 to 1000000000; else any number",
        },
        Word::Flag {
            name: "no-witness",
            letter: 'n',
            help: "Print no v lines and no f lines",
        },
        Word::File {
            name: "INPUT",
            required: true,
            help: "The clauses and queries, an iCNF file that is read line by line",
        },
        Word::File {
            name: "PROOF",
            required: false,
            help: "The file to which a LIDRUP proof is written, line by line",
        },
    ],
};

/// The table of the arguments of `session`. It is a function and no constant, so that proofs of its
/// callers do not unfold the table.
pub(crate) fn rules() -> CommandRules<'static>
    ensures { app_of_command result ≡ session_app }
{
    RULES
}

/// Makes the request of the parsed arguments of `session`; None if a required one is missing, a
/// number is out of range, or they do not go together.
pub(crate) fn asked<'a>(given: &Found<'a>) -> Option<Request<'a>>
    ensures found { IfSome result (Makes (codes "session") given.now.rows) }
    ensures none { IfNone result ((request : Request) → Makes (codes "session") given.now.rows request → ⊥) }
    ensures range { IfSome result IsInRange }
{
    let input = file_of(given, "INPUT")?;
    let limit = any_limit_of(given)?;
    Some(Request::Session {
        input,
        proof: file_of(given, "PROOF"),
        limit,
        witness: printing_of(given).witness,
    })
}
