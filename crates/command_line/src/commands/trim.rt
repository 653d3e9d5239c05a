//! The command `trim`: the table of its arguments, and the request that they make.

ghost use Rattle.std.specs.Prelude.{◌≡◌, IfSome, IfNone, codes};
ghost use Rattle.command_line.specs.CommandLine.{IsInRange, Makes};
ghost use Rattle.command_line.specs.declared.request.Request.{Request};
ghost use Rattle.command_line.specs.Program.{trim_app};
ghost use Rattle.option_table.specs.Rules.{app_of_command};

use crate::commands::run_words::BINARY;
use crate::commands::words::{INPUT, LARGE, file_of, is_given};
use crate::request::Request;
use option_table::{CommandRules, Found, Word};

/// The arguments that `trim` takes.
static RULES: CommandRules<'static> = CommandRules {
    name: "trim",
    about: "Checks an LRAT proof of a DIMACS formula, and writes what its empty clause needs",
    after_help: "Status: 0 the proof is right and OUT is written, 1 it is not, or an error",
    words: &[
        LARGE,
        BINARY,
        INPUT,
        Word::File {
            name: "PROOF",
            required: true,
            help: "The proof, an LRAT file that is read",
        },
        Word::File {
            name: "OUT",
            required: true,
            help: "The file to which the trimmed proof is written",
        },
    ],
};

/// The table of the arguments of `trim`. It is a function and no constant, so that proofs of its
/// callers do not unfold the table.
pub(crate) fn rules() -> CommandRules<'static>
    ensures { app_of_command result ≡ trim_app }
{
    RULES
}

/// Makes the request of the parsed arguments of `trim`; None if a required one is missing, a number
/// is out of range, or they do not go together.
pub(crate) fn asked<'a>(given: &Found<'a>) -> Option<Request<'a>>
    ensures found { IfSome result (Makes (codes "trim") given.now.rows) }
    ensures none { IfNone result ((request : Request) → Makes (codes "trim") given.now.rows request → ⊥) }
    ensures range { IfSome result IsInRange }
{
    let input = file_of(given, "INPUT")?;
    let proof = file_of(given, "PROOF")?;
    let out = file_of(given, "OUT")?;
    Some(Request::Trim {
        input,
        proof,
        out,
        binary: is_given(given, "binary"),
    })
}
