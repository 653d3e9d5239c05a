//! The command `solve`: the table of its arguments, and the request that they make.

ghost use Rattle.std.specs.Prelude.{◌≡◌, IfSome, IfNone, codes};
ghost use Rattle.command_line.specs.CommandLine.{IsInRange, Makes};
ghost use Rattle.command_line.specs.declared.request.Request.{Request};
ghost use Rattle.command_line.specs.Program.{solve_app};
ghost use Rattle.option_table.specs.Rules.{app_of_command};

use crate::commands::run_words::{
    BINARY, CUBES, DEFS, DEPTH, LIMIT, NO_WITNESS, PROGRESS, PROOF, Place, QUIET, STATUS, WORKERS,
    options_of,
};
use crate::commands::words::{INPUT, LARGE, file_of};
use crate::request::Request;
use option_table::{CommandRules, Found};

/// The arguments that `solve` takes.
static RULES: CommandRules<'static> = CommandRules {
    name: "solve",
    about: "Decides a DIMACS formula by a coordinator and its workers, in one process",
    after_help: STATUS,
    words: &[
        LARGE, PROGRESS, WORKERS, DEPTH, LIMIT, CUBES, DEFS, BINARY, QUIET, NO_WITNESS, INPUT,
        PROOF,
    ],
};

/// The table of the arguments of `solve`. It is a function and no constant, so that proofs of its
/// callers do not unfold the table.
pub(crate) fn rules() -> CommandRules<'static>
    ensures { app_of_command result ≡ solve_app }
{
    RULES
}

/// Makes the request of the parsed arguments of `solve`; None if a required one is missing, a
/// number is out of range, or they do not go together.
pub(crate) fn asked<'a>(given: &Found<'a>) -> Option<Request<'a>>
    ensures found { IfSome result (Makes (codes "solve") given.now.rows) }
    ensures none { IfNone result ((request : Request) → Makes (codes "solve") given.now.rows request → ⊥) }
    ensures range { IfSome result IsInRange }
{
    let input = file_of(given, "INPUT")?;
    let options = options_of(given, Place::Here)?;
    Some(Request::Solve {
        input,
        cubes: file_of(given, "cubes"),
        proof: file_of(given, "PROOF"),
        options,
    })
}
