//! The command `model`: the table of its arguments, and the request that they make.

ghost use Rattle.std.specs.Prelude.{◌≡◌, IfSome, IfNone, codes};
ghost use Rattle.command_line.specs.CommandLine.{IsInRange, Makes};
ghost use Rattle.command_line.specs.declared.request.Request.{Request};
ghost use Rattle.command_line.specs.Program.{model_app};
ghost use Rattle.option_table.specs.Rules.{app_of_command};

use crate::commands::words::{INPUT, LARGE, file_of};
use crate::request::Request;
use option_table::{CommandRules, Found, Word};

/// The arguments that `model` takes.
static RULES: CommandRules<'static> = CommandRules {
    name: "model",
    about: "Checks the assignment that a solver has printed of a DIMACS formula",
    after_help: "Status: 0 the assignment satisfies the formula, 1 it does not, or an error",
    words: &[
        LARGE,
        INPUT,
        Word::File {
            name: "FILE",
            required: true,
            help: "The output of a solver, a file of which the v lines are read",
        },
    ],
};

/// The table of the arguments of `model`. It is a function and no constant, so that proofs of its
/// callers do not unfold the table.
pub(crate) fn rules() -> CommandRules<'static>
    ensures { app_of_command result ≡ model_app }
{
    RULES
}

/// Makes the request of the parsed arguments of `model`; None if a required one is missing, a
/// number is out of range, or they do not go together.
pub(crate) fn asked<'a>(given: &Found<'a>) -> Option<Request<'a>>
    ensures found { IfSome result (Makes (codes "model") given.now.rows) }
    ensures none { IfNone result ((request : Request) → Makes (codes "model") given.now.rows request → ⊥) }
    ensures range { IfSome result IsInRange }
{
    let input = file_of(given, "INPUT")?;
    let output = file_of(given, "FILE")?;
    Some(Request::Model { input, output })
}
