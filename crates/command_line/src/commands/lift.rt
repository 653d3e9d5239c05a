//! The command `lift`: the table of its arguments, and the request that they make.

ghost use Rattle.std.specs.Prelude.{◌≡◌, IfSome, IfNone, codes};
ghost use Rattle.command_line.specs.CommandLine.{IsInRange, Makes};
ghost use Rattle.command_line.specs.declared.request.Request.{Request};
ghost use Rattle.command_line.specs.Program.{lift_app};
ghost use Rattle.option_table.specs.Rules.{app_of_command};

use crate::commands::leaf_words::{CUBES, LAST_LEAF, leaf_or_none};
use crate::commands::run_words::BINARY;
use crate::commands::words::{INPUT, LARGE, file_of, is_given};
use crate::request::Request;
use option_table::{CommandRules, Found, Need, Word};

/// The arguments that `lift` takes.
static RULES: CommandRules<'static> = CommandRules {
    name: "lift",
    about: "Makes a fragment of INPUT of a proof of the formula of a leaf, or of a text for leaves",
    after_help: "Status: 0 the fragment is written, 20 it closes all these leaves, 1 it is not written, or an error",
    words: &[
        LARGE,
        CUBES,
        Word::Number {
            name: "leaf",
            low: 1,
            high: LAST_LEAF,
            need: Need::Optional,
            help: "The leaf, by the number of its cube in that file, from 1 to 4294967295: PROOF is one of its formula",
        },
        Word::Number {
            name: "to",
            low: 1,
            high: LAST_LEAF,
            need: Need::Optional,
            help: "With --lidrup and --leaf: PROOF is a text for the leaves up to this one, from 1 to 4294967295",
        },
        Word::LongFlag {
            name: "lidrup",
            help: "PROOF is a LIDRUP text for all leaves, or for those that are named",
        },
        Word::LongFlag {
            name: "drat",
            help: "With --leaf: PROOF is a DRAT proof of the leaf's formula, as text or in binary form",
        },
        BINARY,
        INPUT,
        Word::File {
            name: "PROOF",
            required: true,
            help: "The proof, an LRAT file that is read, or a LIDRUP or DRAT file",
        },
        Word::File {
            name: "FRAGMENT",
            required: true,
            help: "The file to which the fragment is written",
        },
    ],
};

/// The table of the arguments of `lift`. It is a function and no constant, so that proofs of its
/// callers do not unfold the table.
pub(crate) fn rules() -> CommandRules<'static>
    ensures { app_of_command result ≡ lift_app }
{
    RULES
}

/// Makes the request of the parsed arguments of `lift`; None if a required one is missing, a number
/// is out of range, or they do not go together.
pub(crate) fn asked<'a>(given: &Found<'a>) -> Option<Request<'a>>
    ensures found { IfSome result (Makes (codes "lift") given.now.rows) }
    ensures none { IfNone result ((request : Request) → Makes (codes "lift") given.now.rows request → ⊥) }
    ensures range { IfSome result IsInRange }
{
    let input = file_of(given, "INPUT")?;
    let cubes = file_of(given, "cubes")?;
    let leaf = leaf_or_none(given, "leaf")?;
    let to = leaf_or_none(given, "to")?;
    let proof = file_of(given, "PROOF")?;
    let fragment = file_of(given, "FRAGMENT")?;
    Some(Request::Lift {
        input,
        cubes,
        leaf,
        to,
        lidrup: is_given(given, "lidrup"),
        drat: is_given(given, "drat"),
        proof,
        fragment,
        binary: is_given(given, "binary"),
    })
}
