//! The command `elaborate`: the table of its arguments, and the request that they make.

ghost use Rattle.std.specs.Prelude.{◌≡◌, IfSome, IfNone, codes};
ghost use Rattle.command_line.specs.CommandLine.{IsInRange, Makes};
ghost use Rattle.command_line.specs.declared.request.Request.{Request};
ghost use Rattle.command_line.specs.Program.{elaborate_app};
ghost use Rattle.option_table.specs.Rules.{app_of_command};

use crate::commands::run_words::{BINARY, PROGRESS};
use crate::commands::words::{INPUT, LARGE, file_of, is_given};
use crate::request::Request;
use option_table::{CommandRules, Found, Word};

/// The arguments that `elaborate` takes.
static RULES: CommandRules<'static> = CommandRules {
    name: "elaborate",
    about: "Makes an LRAT proof of a DRAT proof of a DIMACS formula",
    after_help: "Status: 0 the proof is right and LRAT is written, 1 it is not, or an error",
    words: &[
        LARGE,
        PROGRESS,
        BINARY,
        INPUT,
        Word::File {
            name: "DRAT",
            required: true,
            help: "The proof, a DRAT file that is read, as text or in binary form",
        },
        Word::File {
            name: "LRAT",
            required: true,
            help: "The file to which the LRAT proof is written",
        },
    ],
};

/// The table of the arguments of `elaborate`. It is a function and no constant, so that proofs of its
/// callers do not unfold the table.
pub(crate) fn rules() -> CommandRules<'static>
    ensures { app_of_command result ≡ elaborate_app }
{
    RULES
}

/// Makes the request of the parsed arguments of `elaborate`; None if a required one is missing, a number
/// is out of range, or they do not go together.
pub(crate) fn asked<'a>(given: &Found<'a>) -> Option<Request<'a>>
    ensures found { IfSome result (Makes (codes "elaborate") given.now.rows) }
    ensures none { IfNone result ((request : Request) → Makes (codes "elaborate") given.now.rows request → ⊥) }
    ensures range { IfSome result IsInRange }
{
    let input = file_of(given, "INPUT")?;
    let drat = file_of(given, "DRAT")?;
    let lrat = file_of(given, "LRAT")?;
    Some(Request::Elaborate {
        input,
        drat,
        lrat,
        progress: is_given(given, "progress"),
        binary: is_given(given, "binary"),
    })
}
