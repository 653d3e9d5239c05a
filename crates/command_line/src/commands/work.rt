//! The command `work`: the table of its arguments, and the request that they make.

ghost use Rattle.std.specs.Prelude.{◌≡◌, IfSome, IfNone, codes};
ghost use Rattle.command_line.specs.CommandLine.{IsInRange, Makes};
ghost use Rattle.command_line.specs.declared.request.Request.{Request};
ghost use Rattle.command_line.specs.Program.{work_app};
ghost use Rattle.option_table.specs.Rules.{app_of_command};

use crate::commands::run_words::{
    BINARY, DEFS, NO_WITNESS, PROOF, Place, QUIET, STATUS, options_of,
};
use crate::commands::words::{INPUT, PORT, file_of, number_of};
use crate::request::Request;
use option_table::{CommandRules, Found, Need, Word};

/// The arguments that `work` takes.
static RULES: CommandRules<'static> = CommandRules {
    name: "work",
    about: "Works for the one who serves this DIMACS formula at a port",
    after_help: STATUS,
    words: &[
        PORT,
        Word::Number {
            name: "number",
            low: 1,
            high: 64,
            need: Need::Usual("1"),
            help: "The number of this worker, from 1 to 64",
        },
        Word::Number {
            name: "incarnation",
            low: 0,
            high: u64::MAX,
            need: Need::Usual("1"),
            help: "Its incarnation, any number of 64 bits",
        },
        Word::LongFlag {
            name: "ahead",
            help: "Send before working, so that other workers have their tasks meanwhile",
        },
        DEFS,
        BINARY,
        QUIET,
        NO_WITNESS,
        INPUT,
        PROOF,
    ],
};

/// The table of the arguments of `work`. It is a function and no constant, so that proofs of its
/// callers do not unfold the table.
pub(crate) fn rules() -> CommandRules<'static>
    ensures { app_of_command result ≡ work_app }
{
    RULES
}

/// Makes the request of the parsed arguments of `work`; None if a required one is missing, a number
/// is out of range, or they do not go together.
pub(crate) fn asked<'a>(given: &Found<'a>) -> Option<Request<'a>>
    ensures found { IfSome result (Makes (codes "work") given.now.rows) }
    ensures none { IfNone result ((request : Request) → Makes (codes "work") given.now.rows request → ⊥) }
    ensures range { IfSome result IsInRange }
{
    let port = number_of(given, "port", 1, 65_535)?;
    let input = file_of(given, "INPUT")?;
    let options = options_of(given, Place::Here)?;
    Some(Request::Work {
        port: port as u16,
        input,
        proof: file_of(given, "PROOF"),
        options,
    })
}
