//! The command `refute`: the table of its arguments, and the request that they make.

ghost use Rattle.std.specs.Prelude.{◌≡◌, IfSome, IfNone, codes};
ghost use Rattle.command_line.specs.CommandLine.{IsInRange, Makes};
ghost use Rattle.command_line.specs.declared.request.Request.{Request};
ghost use Rattle.command_line.specs.Program.{refute_app};
ghost use Rattle.option_table.specs.Rules.{app_of_command};

use crate::commands::leaf_words::{CUBES, LAST_LEAF, LEAF, leaf_of, leaf_or_none};
use crate::commands::run_words::{BINARY, NO_WITNESS, QUIET, printing_of};
use crate::commands::words::{INPUT, LARGE, file_of, is_given, number_of};
use crate::request::Request;
use option_table::{CommandRules, Found, Need, Word};

/// The greatest limit of lemmas of the search under a cube, 2^47: no search learns so many.
const MOST_LEMMAS: u64 = 140_737_488_355_328;

/// The arguments that `refute` takes.
static RULES: CommandRules<'static> = CommandRules {
    name: "refute",
    about: "Searches under a leaf of a DIMACS formula, and makes a fragment of its proof",
    after_help: "Status: 20 the leaf is refuted, 10 satisfiable, 0 unknown, 1 an error",
    words: &[
        LARGE,
        CUBES,
        LEAF,
        Word::Number {
            name: "to",
            low: 1,
            high: LAST_LEAF,
            need: Need::Optional,
            help: "Search under each leaf up to this one, in turn, from 1 to 4294967295",
        },
        Word::LongFlag {
            name: "grow",
            help: "With --to and FRAGMENT: write and tell each leaf as soon as it was searched",
        },
        Word::Number {
            name: "limit",
            low: 1,
            high: MOST_LEMMAS,
            need: Need::Usual("140737488355328"),
            help: "How many lemmas may be learnt under a cube, from 1 to 140737488355328",
        },
        BINARY,
        QUIET,
        NO_WITNESS,
        INPUT,
        Word::File {
            name: "FRAGMENT",
            required: false,
            help: "The file to which a fragment is written, if a leaf is refuted",
        },
    ],
};

/// The table of the arguments of `refute`. It is a function and no constant, so that proofs of its
/// callers do not unfold the table.
pub(crate) fn rules() -> CommandRules<'static>
    ensures { app_of_command result ≡ refute_app }
{
    RULES
}

/// Makes the request of the parsed arguments of `refute`; None if a required one is missing, a
/// number is out of range, or they do not go together.
pub(crate) fn asked<'a>(given: &Found<'a>) -> Option<Request<'a>>
    ensures found { IfSome result (Makes (codes "refute") given.now.rows) }
    ensures none { IfNone result ((request : Request) → Makes (codes "refute") given.now.rows request → ⊥) }
    ensures range { IfSome result IsInRange }
{
    let input = file_of(given, "INPUT")?;
    let cubes = file_of(given, "cubes")?;
    let leaf = leaf_of(given)?;
    let to = leaf_or_none(given, "to")?;
    let limit = number_of(given, "limit", 1, MOST_LEMMAS)?;
    Some(Request::Refute {
        input,
        cubes,
        leaf,
        to,
        grow: is_given(given, "grow"),
        limit,
        fragment: file_of(given, "FRAGMENT"),
        printing: printing_of(given),
        binary: is_given(given, "binary"),
    })
}
