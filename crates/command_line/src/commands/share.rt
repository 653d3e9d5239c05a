//! The command `share`: the table of its arguments, and the request that they make.

ghost use Rattle.std.specs.Prelude.{◌≡◌, ℕ, Option, IfSome, IfNone, codes};
ghost use Rattle.command_line.specs.CommandLine.{IsInRange, Makes, NamesAnyNumber};
ghost use Rattle.command_line.specs.declared.request.Request.{Request};
ghost use Rattle.command_line.specs.Program.{share_app};
ghost use Rattle.option_table.specs.Rules.{app_of_command};

use crate::commands::leaf_words::{LAST_LEAF, leaf_or_none};
use crate::commands::run_words::{CUBES, LAST_LIMIT, NO_WITNESS, QUIET, any_limit_of, printing_of};
use crate::commands::words::{INPUT, LARGE, file_of, is_named, number_of, number_or};
use crate::request::Request;
use option_table::{CommandRules, Found, Need, Word};

/// The word of the folder of a cell.
pub(crate) const FOLDER: Word<'static> = Word::File {
    name: "FOLDER",
    required: true,
    help: "The folder in which the workers of a cell have their logs and offers",
};

/// The greatest number of lemmas in a turn.
const LONGEST_TURN: u64 = 1_000_000;

/// The arguments that `share` takes.
static RULES: CommandRules<'static> = CommandRules {
    name: "share",
    about: "Searches as one worker of a cell, which shares lemmas with the others of its folder",
    after_help: "Status: 20 closed, 10 satisfiable, 0 closed by others or unknown, 1 an error",
    words: &[
        LARGE,
        CUBES,
        Word::Number {
            name: "leaf",
            low: 1,
            high: LAST_LEAF,
            need: Need::Optional,
            help: "With --cubes: search under this leaf first, from 1 to 4294967295; else all of INPUT",
        },
        Word::Number {
            name: "seed",
            low: 0,
            high: u64::MAX,
            need: Need::Optional,
            help: "Begin with the order of variables of this seed; 0 is the plain search; else any",
        },
        Word::Number {
            name: "limit",
            low: 1,
            high: LAST_LIMIT,
            need: Need::Optional,
            help: "How many lemmas may be learnt, from 1 to 1000000000; else any number",
        },
        Word::Number {
            name: "turn",
            low: 1,
            high: LONGEST_TURN,
            need: Need::Usual("300"),
            help: "Read others' lemmas after so many of one's own, from 1 to 1000000",
        },
        QUIET,
        NO_WITNESS,
        INPUT,
        FOLDER,
    ],
};

/// The table of the arguments of `share`. It is a function and no constant, so that proofs of its
/// callers do not unfold the table.
pub(crate) fn rules() -> CommandRules<'static>
    ensures { app_of_command result ≡ share_app }
{
    RULES
}

/// The seed that `--seed` gives; the inner None if it is not given, the outer one if its value is
/// out of range.
fn seed_of(given: &Found) -> Option<Option<u64>>
    ensures found { IfSome result (NamesAnyNumber given.now.rows (codes "seed") 0 18446744073709551615) }
    ensures none { IfNone result ((seed : Option ℕ) → NamesAnyNumber given.now.rows (codes "seed") 0 18446744073709551615 seed → ⊥) }
{
    if !is_named(given, "seed") {
        return Some(None);
    }
    let seed = number_of(given, "seed", 0, u64::MAX)?;
    Some(Some(seed))
}

/// Makes the request of the parsed arguments of `share`; None if a required one is missing, or a
/// number is out of range.
pub(crate) fn asked<'a>(given: &Found<'a>) -> Option<Request<'a>>
    ensures found { IfSome result (Makes (codes "share") given.now.rows) }
    ensures none { IfNone result ((request : Request) → Makes (codes "share") given.now.rows request → ⊥) }
    ensures range { IfSome result IsInRange }
{
    let input = file_of(given, "INPUT")?;
    let folder = file_of(given, "FOLDER")?;
    let leaf = leaf_or_none(given, "leaf")?;
    let seed = seed_of(given)?;
    let limit = any_limit_of(given)?;
    let turn = number_or(given, "turn", 1, LONGEST_TURN, 300)?;
    Some(Request::Share {
        input,
        folder,
        cubes: file_of(given, "cubes"),
        leaf,
        seed,
        limit,
        turn,
        printing: printing_of(given),
    })
}
