//! The command `check`: the table of its arguments, and the request that they make.

ghost use Rattle.std.specs.Prelude.{◌≡◌, IfSome, IfNone, codes};
ghost use Rattle.command_line.specs.CommandLine.{IsInRange, Makes};
ghost use Rattle.command_line.specs.declared.request.Request.{Request};
ghost use Rattle.command_line.specs.Program.{check_app};
ghost use Rattle.option_table.specs.Rules.{app_of_command};

use crate::commands::run_words::PROGRESS;
use crate::commands::words::{INPUT, LARGE, file_of, is_given};
use crate::request::Request;
use option_table::{CommandRules, Found, Word};

/// The arguments that `check` takes.
static RULES: CommandRules<'static> = CommandRules {
    name: "check",
    about: "Checks an LRAT proof of a DIMACS formula, or the LIDRUP proof of a session",
    after_help: "Status: 0 the proof is accepted, 1 it is not, or an error",
    words: &[
        LARGE,
        Word::LongFlag {
            name: "session",
            help: "INPUT is what was sent in a session, clauses and queries, and PROOF is a LIDRUP file",
        },
        Word::LongFlag {
            name: "drat",
            help: "PROOF is a DRAT file, as text or in binary form, as most solvers write",
        },
        PROGRESS,
        INPUT,
        Word::File {
            name: "PROOF",
            required: true,
            help: "The proof of it, an LRAT file that is read, or a LIDRUP file",
        },
    ],
};

/// The table of the arguments of `check`. It is a function and no constant, so that proofs of its
/// callers do not unfold the table.
pub(crate) fn rules() -> CommandRules<'static>
    ensures { app_of_command result ≡ check_app }
{
    RULES
}

/// Makes the request of the parsed arguments of `check`; None if a required one is missing, a
/// number is out of range, or they do not go together.
pub(crate) fn asked<'a>(given: &Found<'a>) -> Option<Request<'a>>
    ensures found { IfSome result (Makes (codes "check") given.now.rows) }
    ensures none { IfNone result ((request : Request) → Makes (codes "check") given.now.rows request → ⊥) }
    ensures range { IfSome result IsInRange }
{
    let input = file_of(given, "INPUT")?;
    let proof = file_of(given, "PROOF")?;
    Some(Request::Check {
        input,
        proof,
        session: is_given(given, "session"),
        drat: is_given(given, "drat"),
        progress: is_given(given, "progress"),
    })
}
