//! The words of a run, which several commands share, and the options that they give.

ghost use Rattle.std.specs.Prelude.{◌≡◌, ◌≤◌, ℕ, Option, IfSome, IfNone, codes};
ghost use Rattle.command_line.specs.CommandLine.{IsLemmaLimit, NamesAnyNumber, NamesOptions, NamesPrinting, usual_depth};
ghost use Rattle.command_line.specs.Options.{AreOptions};
ghost use Rattle.command_line.specs.declared.options.Options.{Options};

use crate::commands::words::{is_named, number_of, number_or};
use crate::options::Options;
use crate::output::Printing;
use option_table::{Found, Need, Word};

/// What help says of the exit status of a run.
pub(crate) const STATUS: &str = "Status: 10 satisfiable, 20 unsatisfiable, 0 unknown, 1 an error";

/// The word of the number of workers.
pub(crate) const WORKERS: Word<'static> = Word::Number {
    name: "workers",
    low: 1,
    high: 64,
    need: Need::Usual("2"),
    help: "How many workers there are, from 1 to 64",
};

/// The word of the depth to which the formula is split.
pub(crate) const DEPTH: Word<'static> = Word::Number {
    name: "depth",
    low: 0,
    high: 16,
    need: Need::Usual("4"),
    help: "How many variables a cube has at most, from 0 to 16",
};

/// The word of the limit of lemmas in the search under a leaf.
pub(crate) const LIMIT: Word<'static> = Word::Number {
    name: "limit",
    low: 1,
    high: 1_000_000_000,
    need: Need::Usual("100000"),
    help: "How many lemmas may be learnt under a cube, from 1 to 1000000000",
};

/// The word of the cubes that are taken instead of a split.
pub(crate) const CUBES: Word<'static> = Word::NamedFile {
    name: "cubes",
    required: false,
    help: "Take the cubes of this iCNF file, whose clauses are those of INPUT",
};

/// The word of the number of defined variables.
pub(crate) const DEFS: Word<'static> = Word::Number {
    name: "defs",
    low: 0,
    high: 64,
    need: Need::Usual("0"),
    help: "How many variables are defined before INPUT is split, from 0 to 64",
};

/// The word by which `c` lines are left out.
pub(crate) const QUIET: Word<'static> = Word::Flag {
    name: "quiet",
    letter: 'q',
    help: "Print no c lines, but for c usage",
};

/// The word by which the `v` lines of an assignment are left out.
pub(crate) const NO_WITNESS: Word<'static> = Word::Flag {
    name: "no-witness",
    letter: 'n',
    help: "Print no v lines",
};

/// The word by which the proof is written in binary form.
pub(crate) const BINARY: Word<'static> = Word::LongFlag {
    name: "binary",
    help: "Write the proof in binary form",
};

/// The word of the proof.
pub(crate) const PROOF: Word<'static> = Word::File {
    name: "PROOF",
    required: false,
    help: "The file to which an LRAT proof is written, where nothing satisfies INPUT",
};

/// The word by which the progress of the run is shown.
pub(crate) const PROGRESS: Word<'static> = Word::LongFlag {
    name: "progress",
    help: "Tell on standard error, once a second, how far the run has come",
};

/// The greatest number of seconds of patience.
const LONGEST: u64 = 1_000_000_000;

/// The word of the seconds that a task may take.
pub(crate) const PATIENCE: Word<'static> = Word::Number {
    name: "patience",
    low: 1,
    high: LONGEST,
    need: Need::Optional,
    help: "How many seconds a task may take while another worker is free; else for ever",
};

/// The seconds that `--patience` gives; the inner None if it is not given, the outer one if its
/// value is out of range.
fn patience_of(given: &Found) -> Option<Option<u64>>
    ensures found { IfSome result (NamesAnyNumber given.now.rows (codes "patience") 1 1000000000) }
    ensures none { IfNone result ((patience : Option ℕ) → NamesAnyNumber given.now.rows (codes "patience") 1 1000000000 patience → ⊥) }
{
    if !is_named(given, "patience") {
        return Some(None);
    }
    let seconds = number_of(given, "patience", 1, LONGEST)?;
    Some(Some(seconds))
}

/// The greatest limit of lemmas of a search.
pub(crate) const LAST_LIMIT: u64 = 1_000_000_000;

/// The number of lemmas that `--limit` gives if it has no default; the inner None if it is not
/// given, the outer one if its value is out of range.
pub(crate) fn any_limit_of(given: &Found) -> Option<Option<u64>>
    ensures found { IfSome result (NamesAnyNumber given.now.rows (codes "limit") 1 1000000000) }
    ensures none { IfNone result ((limit : Option ℕ) → NamesAnyNumber given.now.rows (codes "limit") 1 1000000000 limit → ⊥) }
    ensures range { IfSome result (λ limit. IfSome limit IsLemmaLimit) }
{
    if !is_named(given, "limit") {
        return Some(None);
    }
    let lemmas = number_of(given, "limit", 1, LAST_LIMIT)?;
    Some(Some(lemmas))
}

/// Where the workers of a run come from.
#[derive(Clone, Copy)]
pub(crate) enum Place {
    /// In this process.
    Here,
    /// From other processes, which connect to a port.
    AtPort,
}

/// The depth to which the formula is split if no word gives it: the more workers there may be, the more leaves there are, so that all
/// workers end at nearly the same time.
fn usual_depth(place: Place, workers: u64) -> u64
    ensures depth { result ≡ usual_depth place workers }
    ensures most { result ≤ 16 }
{
    match place {
        Place::Here => 4,
        Place::AtPort => {
            if workers <= 1 {
                6
            } else if workers <= 8 {
                8
            } else {
                10
            }
        }
    }
}

/// The options that the words of a run give, the default for each that they do not give or that the command does not have; None if a number
/// is out of range.
pub(crate) fn options_of(given: &Found, place: Place) -> Option<Options>
    ensures found { IfSome result (NamesOptions place given.now.rows) }
    ensures none { IfNone result ((options : Options) → NamesOptions place given.now.rows options → ⊥) }
    ensures range { IfSome result AreOptions }
{
    let workers = number_or(given, "workers", 1, 64, 2)?;
    let depth = number_or(given, "depth", 0, 16, usual_depth(place, workers))?;
    let limit = number_or(given, "limit", 1, 1_000_000_000, 100_000)?;
    let session = number_or(given, "session", 0, u64::MAX, 1)?;
    let number = number_or(given, "number", 1, 64, 1)?;
    let incarnation = number_or(given, "incarnation", 0, u64::MAX, 1)?;
    let defs = number_or(given, "defs", 0, 64, 0)?;
    let patience = patience_of(given)?;
    let printing = printing_of(given);
    Some(Options {
        workers: workers as u32,
        depth: depth as u32,
        limit,
        session,
        number: number as u32,
        incarnation,
        defs: defs as u32,
        ahead: given.flag("ahead"),
        patience,
        progress: given.flag("progress"),
        rounds: given.flag("rounds"),
        binary: given.flag("binary"),
        quiet: printing.quiet,
        witness: printing.witness,
    })
}

/// What is printed, by the flags `-q` and `--no-witness`.
pub(crate) fn printing_of(given: &Found) -> Printing
    ensures { NamesPrinting given.now.rows result }
{
    Printing {
        quiet: given.flag("quiet"),
        witness: !given.flag("no-witness"),
    }
}
