//! The command `leaf`: the table of its arguments, and the request that they make.

ghost use Rattle.std.specs.Prelude.{◌≡◌, IfSome, IfNone, codes};
ghost use Rattle.command_line.specs.CommandLine.{IsInRange, Makes};
ghost use Rattle.command_line.specs.declared.request.Request.{Request};
ghost use Rattle.command_line.specs.Program.{leaf_app};
ghost use Rattle.option_table.specs.Rules.{app_of_command};

use crate::commands::leaf_words::{CUBES, LEAF, leaf_of};
use crate::commands::words::{INPUT, LARGE, file_of};
use crate::request::Request;
use option_table::{CommandRules, Found};

/// The arguments that `leaf` takes.
static RULES: CommandRules<'static> = CommandRules {
    name: "leaf",
    about: "Prints the formula of a leaf as DIMACS: the clauses of INPUT and the literals of its cube",
    after_help: "Status: 0 the formula is printed, 1 an error",
    words: &[LARGE, CUBES, LEAF, INPUT],
};

/// The table of the arguments of `leaf`. It is a function and no constant, so that proofs of its
/// callers do not unfold the table.
pub(crate) fn rules() -> CommandRules<'static>
    ensures { app_of_command result ≡ leaf_app }
{
    RULES
}

/// Makes the request of the parsed arguments of `leaf`; None if a required one is missing, a number
/// is out of range, or they do not go together.
pub(crate) fn asked<'a>(given: &Found<'a>) -> Option<Request<'a>>
    ensures found { IfSome result (Makes (codes "leaf") given.now.rows) }
    ensures none { IfNone result ((request : Request) → Makes (codes "leaf") given.now.rows request → ⊥) }
    ensures range { IfSome result IsInRange }
{
    let input = file_of(given, "INPUT")?;
    let cubes = file_of(given, "cubes")?;
    let leaf = leaf_of(given)?;
    Some(Request::Leaf { input, cubes, leaf })
}
