//! The command `join`: the table of its arguments, and the request that they make.

ghost use Rattle.std.specs.Prelude.{◌≡◌, IfOk, IfSome, IfNone, codes, false, true};
ghost use Rattle.command_line.specs.CommandLine.{IsDry, IsInRange, Makes, NamesFiles, NamesJoined};
ghost use Rattle.command_line.specs.declared.request.Request.{Request};
ghost use Rattle.command_line.specs.Program.{join_app};
ghost use Rattle.option_table.specs.Rules.{app_of_command};

use crate::commands::leaf_words::CUBES;
use crate::commands::run_words::{BINARY, NO_WITNESS, QUIET, STATUS, printing_of};
use crate::commands::words::{INPUT, LARGE, file_of, files_of, is_given};
use crate::request::Request;
use option_table::{CommandRules, Found, Word};
use std::alloc::{AllocError, Global};

/// The arguments that `join` takes.
static RULES: CommandRules<'static> = CommandRules {
    name: "join",
    about: "Joins the fragments of all leaves of a DIMACS formula into one LRAT proof",
    after_help: STATUS,
    words: &[
        LARGE,
        Word::LongFlag {
            name: "dry",
            help: "Write nothing: each NAME is a fragment",
        },
        CUBES,
        BINARY,
        QUIET,
        NO_WITNESS,
        INPUT,
        Word::Files {
            name: "NAME",
            help: "PROOF, which is written (not with --dry); then the fragments, or - for names on standard input",
        },
    ],
};

/// The table of the arguments of `join`. It is a function and no constant, so that proofs of its
/// callers do not unfold the table.
pub(crate) fn rules() -> CommandRules<'static>
    ensures { app_of_command result ≡ join_app }
{
    RULES
}

/// Whether `--dry` is given, by which nothing is written.
fn is_dry(given: &Found) -> bool
    ensures yes { result ≡ true → IsDry given.now.rows }
    ensures no { result ≡ false → IsDry given.now.rows → ⊥ }
{
    match given.text("dry") {
        Some(text) => text == "true",
        None => false,
    }
}

/// Makes the request of `join` for this proof and these fragments; None if a required file is
/// missing.
fn joining<'a>(
    given: &Found<'a>,
    proof: Option<&'a str>,
    fragments: Vec<&'a str>,
) -> Option<Request<'a>>
    requires { NamesJoined given.now.rows proof fragments.items }
    ensures found { IfSome result (Makes (codes "join") given.now.rows) }
    ensures none { IfNone result ((request : Request) → Makes (codes "join") given.now.rows request → ⊥) }
    ensures range { IfSome result IsInRange }
{
    let input = file_of(given, "INPUT")?;
    let cubes = file_of(given, "cubes")?;
    Some(Request::Join {
        input,
        cubes,
        proof,
        fragments,
        printing: printing_of(given),
        binary: is_given(given, "binary"),
    })
}

/// Makes the request of `join` for its list of names: the first is the proof, unless `--dry` is
/// given, and the others are fragments. None if there are too few.
fn naming<'a>(given: &Found<'a>, names: Vec<&'a str>) -> Option<Request<'a>>
    requires { NamesFiles given.now.rows (codes "NAME") names.items }
    ensures found { IfSome result (Makes (codes "join") given.now.rows) }
    ensures none { IfNone result ((request : Request) → Makes (codes "join") given.now.rows request → ⊥) }
    ensures range { IfSome result IsInRange }
{
    if is_dry(given) {
        return joining(given, None, names);
    }
    if names.len() < 2 {
        return None;
    }
    let mut fragments = names;
    let proof = fragments.remove(0);
    joining(given, Some(proof), fragments)
}

/// Makes the request of the parsed arguments of `join`; None if a required one is missing, a number
/// is out of range, or they do not go together. It is an error if memory is refused.
pub(crate) fn asked<'a>(alloc: Global, given: &Found<'a>) -> Result<Option<Request<'a>>, AllocError>
    ensures found { IfOk result (λ found. IfSome found (Makes (codes "join") given.now.rows)) }
    ensures none { IfOk result (λ found. IfNone found ((request : Request) → Makes (codes "join") given.now.rows request → ⊥)) }
    ensures range { IfOk result (λ found. IfSome found IsInRange) }
{
    match files_of(alloc, given, "NAME")? {
        Some(names) => Ok(naming(given, names)),
        None => Ok(None),
    }
}
