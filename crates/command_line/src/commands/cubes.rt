//! The command `cubes`: the table of its arguments, and the request that they make.

ghost use Rattle.std.specs.Prelude.{◌≡◌, ◌-◌, ◌^◌, ℕ, Option, Some, IfSome, IfNone, codes};
ghost use Rattle.command_line.specs.CommandLine.{IsInRange, IsVariable, Makes, NamesAnyNumber, NamesFile, NamesNothing};
ghost use Rattle.command_line.specs.declared.request.Request.{Request};
ghost use Rattle.command_line.specs.Program.{cubes_app};
ghost use Rattle.option_table.specs.Rules.{app_of_command};

use crate::commands::leaf_words::LAST_LEAF;
use crate::commands::words::{INPUT, LARGE, file_of, is_named, number_of, number_or};
use crate::request::Request;
use option_table::{CommandRules, Found, Need, Word};

/// The greatest number of a variable.
const LAST_VARIABLE: u64 = 2_147_483_647;

/// The greatest number of leaves of a tree.
const LAST_LEAVES: u64 = 65_536;

/// The arguments that `cubes` takes.
static RULES: CommandRules<'static> = CommandRules {
    name: "cubes",
    about: "Splits a DIMACS formula into cubes, as iCNF, cuts a leaf in two, or completes cubes",
    after_help: "Status: 0 the cubes are printed, 1 an error",
    words: &[
        LARGE,
        Word::Number {
            name: "depth",
            low: 0,
            high: 16,
            need: Need::Optional,
            help: "How many variables a cube has at most, from 0 to 16; else 4",
        },
        Word::Number {
            name: "look",
            low: 1,
            high: LAST_LEAVES,
            need: Need::Optional,
            help: "Look ahead, for about so many leaves, from 1 to 65536; with --split 2",
        },
        Word::NamedFile {
            name: "cubes",
            required: false,
            help: "With --split: the cubes, an iCNF file whose clauses are those of INPUT",
        },
        Word::Number {
            name: "split",
            low: 1,
            high: LAST_LEAF,
            need: Need::Optional,
            help: "The leaf of FILE to cut in two, by its number, from 1 to 4294967295",
        },
        Word::Number {
            name: "on",
            low: 1,
            high: LAST_VARIABLE,
            need: Need::Optional,
            help: "With --split: the variable it is cut on, from 1 to 2147483647; else by rule",
        },
        Word::NamedFile {
            name: "complete",
            required: false,
            help: "Complete the cubes that this file lists, in any order, to a tree",
        },
        INPUT,
    ],
};

/// The table of the arguments of `cubes`. It is a function and no constant, so that proofs of its
/// callers do not unfold the table.
pub(crate) fn rules() -> CommandRules<'static>
    ensures { app_of_command result ≡ cubes_app }
{
    RULES
}

/// The variable that `--on` gives; the inner None if `--on` is not given, the outer one if its
/// value is no variable.
fn on_of(given: &Found) -> Option<Option<u32>>
    ensures found { IfSome result (NamesAnyNumber given.now.rows (codes "on") 1 (2 ^ 31 - 1)) }
    ensures none { IfNone result ((on : Option ℕ) → NamesAnyNumber given.now.rows (codes "on") 1 (2 ^ 31 - 1) on → ⊥) }
    ensures range { IfSome result (λ on. IfSome on IsVariable) }
{
    if !is_named(given, "on") {
        return Some(None);
    }
    let variable = number_of(given, "on", 1, LAST_VARIABLE)?;
    Some(Some(variable as u32))
}

/// Makes the request of `cubes --split` without `--look`: the leaf is split by the split rule, or
/// on the variable of `--on`. None if the arguments do not go together.
fn splitting_by_rule<'a>(given: &Found<'a>, input: &'a str, cubes: &'a str) -> Option<Request<'a>>
    requires input { NamesFile given.now.rows (codes "INPUT") (Some input) }
    requires list { NamesNothing given.now.rows (codes "complete") }
    requires cubes { NamesFile given.now.rows (codes "cubes") (Some cubes) }
    requires look { NamesNothing given.now.rows (codes "look") }
    ensures found { IfSome result (Makes (codes "cubes") given.now.rows) }
    ensures none { IfNone result ((request : Request) → Makes (codes "cubes") given.now.rows request → ⊥) }
    ensures range { IfSome result IsInRange }
{
    if is_named(given, "depth") {
        return None;
    }
    let leaf = number_of(given, "split", 1, LAST_LEAF)?;
    let on = on_of(given)?;
    Some(Request::Split {
        input,
        cubes,
        leaf: leaf as u32,
        on,
    })
}

/// Makes the request of `cubes --split` with `--look`: the leaf is split by lookahead. None if the
/// arguments do not go together.
fn splitting_by_look<'a>(given: &Found<'a>, input: &'a str, cubes: &'a str) -> Option<Request<'a>>
    requires input { NamesFile given.now.rows (codes "INPUT") (Some input) }
    requires list { NamesNothing given.now.rows (codes "complete") }
    requires cubes { NamesFile given.now.rows (codes "cubes") (Some cubes) }
    requires look { NamesNothing given.now.rows (codes "look") → ⊥ }
    ensures found { IfSome result (Makes (codes "cubes") given.now.rows) }
    ensures none { IfNone result ((request : Request) → Makes (codes "cubes") given.now.rows request → ⊥) }
    ensures range { IfSome result IsInRange }
{
    if is_named(given, "depth") || is_named(given, "on") {
        return None;
    }
    let leaf = number_of(given, "split", 1, LAST_LEAF)?;
    // A leaf is cut in two.
    let _two = number_of(given, "look", 2, 2)?;
    Some(Request::SplitByLook {
        input,
        cubes,
        leaf: leaf as u32,
    })
}

/// Makes the request of `cubes --cubes`, which splits a leaf of that tree; None if the arguments do
/// not go together.
fn splitting<'a>(given: &Found<'a>, input: &'a str, cubes: &'a str) -> Option<Request<'a>>
    requires input { NamesFile given.now.rows (codes "INPUT") (Some input) }
    requires list { NamesNothing given.now.rows (codes "complete") }
    requires cubes { NamesFile given.now.rows (codes "cubes") (Some cubes) }
    ensures found { IfSome result (Makes (codes "cubes") given.now.rows) }
    ensures none { IfNone result ((request : Request) → Makes (codes "cubes") given.now.rows request → ⊥) }
    ensures range { IfSome result IsInRange }
{
    if is_named(given, "look") {
        return splitting_by_look(given, input, cubes);
    }
    splitting_by_rule(given, input, cubes)
}

/// Makes the request of `cubes --look`, which splits a formula by lookahead; None if the arguments
/// do not go together.
fn looking<'a>(given: &Found<'a>, input: &'a str) -> Option<Request<'a>>
    requires input { NamesFile given.now.rows (codes "INPUT") (Some input) }
    requires list { NamesNothing given.now.rows (codes "complete") }
    requires cubes { NamesNothing given.now.rows (codes "cubes") }
    requires cut { NamesNothing given.now.rows (codes "split") }
    requires on { NamesNothing given.now.rows (codes "on") }
    requires look { NamesNothing given.now.rows (codes "look") → ⊥ }
    ensures found { IfSome result (Makes (codes "cubes") given.now.rows) }
    ensures none { IfNone result ((request : Request) → Makes (codes "cubes") given.now.rows request → ⊥) }
    ensures range { IfSome result IsInRange }
{
    if is_named(given, "depth") {
        return None;
    }
    let leaves = number_of(given, "look", 1, LAST_LEAVES)?;
    Some(Request::Look {
        input,
        leaves: leaves as u32,
    })
}

/// Makes the request of `cubes` without `--cubes` and `--complete`, which splits a formula: by the
/// split rule to a depth, or by lookahead. None if the arguments do not go together.
fn cubing<'a>(given: &Found<'a>, input: &'a str) -> Option<Request<'a>>
    requires input { NamesFile given.now.rows (codes "INPUT") (Some input) }
    requires list { NamesNothing given.now.rows (codes "complete") }
    requires cubes { NamesNothing given.now.rows (codes "cubes") }
    ensures found { IfSome result (Makes (codes "cubes") given.now.rows) }
    ensures none { IfNone result ((request : Request) → Makes (codes "cubes") given.now.rows request → ⊥) }
    ensures range { IfSome result IsInRange }
{
    if is_named(given, "split") || is_named(given, "on") {
        return None;
    }
    if is_named(given, "look") {
        return looking(given, input);
    }
    let depth = number_or(given, "depth", 0, 16, 4)?;
    Some(Request::Cubes {
        input,
        depth: depth as u32,
    })
}

/// Makes the request of `cubes --complete`, which completes a list of cubes to a tree; None if the
/// arguments do not go together.
fn completing<'a>(given: &Found<'a>, input: &'a str, list: &'a str) -> Option<Request<'a>>
    requires input { NamesFile given.now.rows (codes "INPUT") (Some input) }
    requires list { NamesFile given.now.rows (codes "complete") (Some list) }
    ensures found { IfSome result (Makes (codes "cubes") given.now.rows) }
    ensures none { IfNone result ((request : Request) → Makes (codes "cubes") given.now.rows request → ⊥) }
    ensures range { IfSome result IsInRange }
{
    if is_named(given, "depth") || is_named(given, "cubes") {
        return None;
    }
    if is_named(given, "split") || is_named(given, "on") || is_named(given, "look") {
        return None;
    }
    Some(Request::Complete { input, list })
}

/// Makes the request of `cubes` without `--complete`: splits a leaf if `--cubes` is given, and else
/// the formula. None if the arguments do not go together.
fn splitting_or_cubing<'a>(given: &Found<'a>, input: &'a str) -> Option<Request<'a>>
    requires input { NamesFile given.now.rows (codes "INPUT") (Some input) }
    requires list { NamesNothing given.now.rows (codes "complete") }
    ensures found { IfSome result (Makes (codes "cubes") given.now.rows) }
    ensures none { IfNone result ((request : Request) → Makes (codes "cubes") given.now.rows request → ⊥) }
    ensures range { IfSome result IsInRange }
{
    match file_of(given, "cubes") {
        Some(cubes) => splitting(given, input, cubes),
        None => cubing(given, input),
    }
}

/// Makes the request of the parsed arguments of `cubes`; None if a required one is missing, a
/// number is out of range, or they do not go together.
pub(crate) fn asked<'a>(given: &Found<'a>) -> Option<Request<'a>>
    ensures found { IfSome result (Makes (codes "cubes") given.now.rows) }
    ensures none { IfNone result ((request : Request) → Makes (codes "cubes") given.now.rows request → ⊥) }
    ensures range { IfSome result IsInRange }
{
    let input = file_of(given, "INPUT")?;
    match file_of(given, "complete") {
        Some(list) => completing(given, input, list),
        None => splitting_or_cubing(given, input),
    }
}
