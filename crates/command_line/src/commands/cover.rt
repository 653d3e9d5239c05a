//! The command `cover`: the table of its arguments, and the request that they make.

ghost use Rattle.std.specs.Prelude.{◌≡◌, IfOk, IfSome, IfNone, codes};
ghost use Rattle.command_line.specs.CommandLine.{IsInRange, Makes, NamesFiles};
ghost use Rattle.command_line.specs.declared.request.Request.{Request};
ghost use Rattle.command_line.specs.Program.{cover_app};
ghost use Rattle.option_table.specs.Rules.{app_of_command};

use crate::commands::leaf_words::CUBES;
use crate::commands::run_words::QUIET;
use crate::commands::words::{INPUT, file_of, files_of, is_given};
use crate::request::Request;
use option_table::{CommandRules, Found, Word};
use std::alloc::{AllocError, Global};

/// The arguments that `cover` takes.
static RULES: CommandRules<'static> = CommandRules {
    name: "cover",
    about: "Tells whether receipts over a DIMACS formula close all of its leaves",
    after_help: "Status: 0 they close all, 1 a leaf is open, or an error",
    words: &[
        CUBES,
        QUIET,
        INPUT,
        Word::Files {
            name: "NAME",
            help: "The receipts, or - for names on standard input",
        },
    ],
};

/// The table of the arguments of `cover`. It is a function and no constant, so that proofs of its
/// callers do not unfold the table.
pub(crate) fn rules() -> CommandRules<'static>
    ensures { app_of_command result ≡ cover_app }
{
    RULES
}

/// Makes the request of `cover` for these receipts; None if a required file is missing.
fn covering<'a>(given: &Found<'a>, receipts: Vec<&'a str>) -> Option<Request<'a>>
    requires { NamesFiles given.now.rows (codes "NAME") receipts.items }
    ensures found { IfSome result (Makes (codes "cover") given.now.rows) }
    ensures none { IfNone result ((request : Request) → Makes (codes "cover") given.now.rows request → ⊥) }
    ensures range { IfSome result IsInRange }
{
    let input = file_of(given, "INPUT")?;
    let cubes = file_of(given, "cubes")?;
    Some(Request::Cover {
        input,
        cubes,
        receipts,
        quiet: is_given(given, "quiet"),
    })
}

/// Makes the request of the parsed arguments of `cover`; None if a required one is missing, a
/// number is out of range, or they do not go together. It is an error if memory is refused.
pub(crate) fn asked<'a>(alloc: Global, given: &Found<'a>) -> Result<Option<Request<'a>>, AllocError>
    ensures found { IfOk result (λ found. IfSome found (Makes (codes "cover") given.now.rows)) }
    ensures none { IfOk result (λ found. IfNone found ((request : Request) → Makes (codes "cover") given.now.rows request → ⊥)) }
    ensures range { IfOk result (λ found. IfSome found IsInRange) }
{
    match files_of(alloc, given, "NAME")? {
        Some(names) => Ok(covering(given, names)),
        None => Ok(None),
    }
}
