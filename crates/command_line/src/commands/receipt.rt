//! The command `receipt`: the table of its arguments, and the request that they make.

ghost use Rattle.std.specs.Prelude.{◌≡◌, IfSome, IfNone, codes};
ghost use Rattle.command_line.specs.CommandLine.{IsInRange, Makes};
ghost use Rattle.command_line.specs.declared.request.Request.{Request};
ghost use Rattle.command_line.specs.Program.{receipt_app};
ghost use Rattle.option_table.specs.Rules.{app_of_command};

use crate::commands::leaf_words::CUBES;
use crate::commands::words::{INPUT, file_of};
use crate::request::Request;
use option_table::{CommandRules, Found, Word};

/// The arguments that `receipt` takes.
static RULES: CommandRules<'static> = CommandRules {
    name: "receipt",
    about: "Checks a log of a DIMACS formula, and writes which clauses of it close leaves",
    after_help: "Status: 0 the log closes a leaf and RECEIPT is written, 1 it does not, or an error",
    words: &[
        CUBES,
        INPUT,
        Word::File {
            name: "LOG",
            required: true,
            help: "The log, an LRAT file that is read",
        },
        Word::File {
            name: "RECEIPT",
            required: true,
            help: "The file to which the receipt is written",
        },
    ],
};

/// The table of the arguments of `receipt`. It is a function and no constant, so that proofs of its
/// callers do not unfold the table.
pub(crate) fn rules() -> CommandRules<'static>
    ensures { app_of_command result ≡ receipt_app }
{
    RULES
}

/// Makes the request of the parsed arguments of `receipt`; None if a required one is missing, a
/// number is out of range, or they do not go together.
pub(crate) fn asked<'a>(given: &Found<'a>) -> Option<Request<'a>>
    ensures found { IfSome result (Makes (codes "receipt") given.now.rows) }
    ensures none { IfNone result ((request : Request) → Makes (codes "receipt") given.now.rows request → ⊥) }
    ensures range { IfSome result IsInRange }
{
    let input = file_of(given, "INPUT")?;
    let cubes = file_of(given, "cubes")?;
    let log = file_of(given, "LOG")?;
    let receipt = file_of(given, "RECEIPT")?;
    Some(Request::Receipt {
        input,
        cubes,
        log,
        receipt,
    })
}
