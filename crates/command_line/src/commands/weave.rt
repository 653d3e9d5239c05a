//! The command `weave`: the table of its arguments, and the request that they make.

ghost use Rattle.std.specs.Prelude.{◌≡◌, IfSome, IfNone, codes};
ghost use Rattle.command_line.specs.CommandLine.{IsInRange, Makes};
ghost use Rattle.command_line.specs.declared.request.Request.{Request};
ghost use Rattle.command_line.specs.Program.{weave_app};
ghost use Rattle.option_table.specs.Rules.{app_of_command};

use crate::commands::run_words::{BINARY, CUBES};
use crate::commands::share::FOLDER;
use crate::commands::words::{INPUT, LARGE, file_of, is_given};
use crate::request::Request;
use option_table::{CommandRules, Found, Word};

/// The arguments that `weave` takes.
static RULES: CommandRules<'static> = CommandRules {
    name: "weave",
    about: "Weaves the logs of a cell into one log",
    after_help: "Status: 20 all is closed, 0 some leaves are, 1 nothing is, or an error",
    words: &[
        LARGE,
        CUBES,
        BINARY,
        INPUT,
        FOLDER,
        Word::File {
            name: "LOG",
            required: true,
            help: "The file to which the log is written",
        },
    ],
};

/// The table of the arguments of `weave`. It is a function and no constant, so that proofs of its
/// callers do not unfold the table.
pub(crate) fn rules() -> CommandRules<'static>
    ensures { app_of_command result ≡ weave_app }
{
    RULES
}

/// Makes the request of the parsed arguments of `weave`; None if a required one is missing.
pub(crate) fn asked<'a>(given: &Found<'a>) -> Option<Request<'a>>
    ensures found { IfSome result (Makes (codes "weave") given.now.rows) }
    ensures none { IfNone result ((request : Request) → Makes (codes "weave") given.now.rows request → ⊥) }
    ensures range { IfSome result IsInRange }
{
    let input = file_of(given, "INPUT")?;
    let folder = file_of(given, "FOLDER")?;
    let log = file_of(given, "LOG")?;
    Some(Request::Weave {
        input,
        folder,
        log,
        cubes: file_of(given, "cubes"),
        binary: is_given(given, "binary"),
    })
}
