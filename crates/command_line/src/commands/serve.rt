//! The command `serve`: the table of its arguments, and the request that they make.

ghost use Rattle.std.specs.Prelude.{◌≡◌, IfSome, IfNone, codes};
ghost use Rattle.command_line.specs.CommandLine.{IsInRange, Makes};
ghost use Rattle.command_line.specs.declared.request.Request.{Request};
ghost use Rattle.command_line.specs.Program.{serve_app};
ghost use Rattle.option_table.specs.Rules.{app_of_command};

use crate::commands::run_words::{
    BINARY, CUBES, DEFS, NO_WITNESS, PATIENCE, PROGRESS, PROOF, Place, QUIET, STATUS, WORKERS,
    options_of,
};
use crate::commands::words::{INPUT, PORT, file_of, number_of};
use crate::request::Request;
use option_table::{CommandRules, Found, Need, Word};

/// The arguments that `serve` takes.
static RULES: CommandRules<'static> = CommandRules {
    name: "serve",
    about: "Decides a DIMACS formula as solve does, by workers that connect to a port",
    after_help: STATUS,
    words: &[
        PORT,
        Word::Number {
            name: "session",
            low: 0,
            high: u64::MAX,
            need: Need::Usual("1"),
            help: "The number of this session, any number of 64 bits",
        },
        PATIENCE,
        PROGRESS,
        Word::LongFlag {
            name: "rounds",
            help: "Take the workers in turns, and begin when all are there",
        },
        WORKERS,
        Word::Number {
            name: "depth",
            low: 0,
            high: 16,
            need: Need::Optional,
            help: "How many variables a cube has at most, from 0 to 16; else 6, 8 or 10 by the workers",
        },
        Word::Number {
            name: "limit",
            low: 1,
            high: 1_000_000_000,
            need: Need::Usual("1000000"),
            help: "How many lemmas may be learnt under a cube, from 1 to 1000000000",
        },
        CUBES,
        DEFS,
        BINARY,
        QUIET,
        NO_WITNESS,
        INPUT,
        PROOF,
    ],
};

/// The table of the arguments of `serve`. It is a function and no constant, so that proofs of its
/// callers do not unfold the table.
pub(crate) fn rules() -> CommandRules<'static>
    ensures { app_of_command result ≡ serve_app }
{
    RULES
}

/// Makes the request of the parsed arguments of `serve`; None if a required one is missing, a
/// number is out of range, or they do not go together.
pub(crate) fn asked<'a>(given: &Found<'a>) -> Option<Request<'a>>
    ensures found { IfSome result (Makes (codes "serve") given.now.rows) }
    ensures none { IfNone result ((request : Request) → Makes (codes "serve") given.now.rows request → ⊥) }
    ensures range { IfSome result IsInRange }
{
    let port = number_of(given, "port", 1, 65_535)?;
    let input = file_of(given, "INPUT")?;
    let options = options_of(given, Place::AtPort)?;
    Some(Request::Serve {
        port: port as u16,
        input,
        cubes: file_of(given, "cubes"),
        proof: file_of(given, "PROOF"),
        options,
    })
}
