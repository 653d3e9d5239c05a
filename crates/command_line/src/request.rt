//! The request that a command line makes.

ghost use Rattle.std.specs.Prelude.{◌≡◌};
ghost use Rattle.command_line.specs.declared.request.UsageFault.TheVariants.{NoMemory};

use crate::options::Options;
use crate::output::Printing;
use std::alloc::AllocError;
use thiserror::Error;

/// A request: what is to be done, and with which files.
#[derive(Drop, PartialEq, Eq)]
pub enum Request<'a> {
    /// Decide a formula by one search, which learns at most `limit` lemmas, from 1 to 1,000,000,000, or any number. The proof is written to a
    /// file if one is named. Progress is shown on standard error, and what the search has done is printed, if these flags are given.
    Decide {
        input: &'a str,
        proof: Option<&'a str>,
        limit: Option<u64>,
        progress: bool,
        stats: bool,
        printing: Printing,
        binary: bool,
    },
    /// Decide a formula by workers of this process. It is split by the cubes of a file if one is named, and the proof is written to a file
    /// if one is named.
    Solve {
        input: &'a str,
        cubes: Option<&'a str>,
        proof: Option<&'a str>,
        options: Options,
    },
    /// Check a proof of a formula; or the proof of a session if `session` is true: then the input is what was sent in it. If `drat` is true,
    /// it is a DRAT proof of a formula; the run refuses both. If `progress` is true, the run tells how far a DRAT proof was elaborated, and
    /// refuses other proofs.
    Check {
        input: &'a str,
        proof: &'a str,
        session: bool,
        drat: bool,
        progress: bool,
    },
    /// Split a formula into cubes of at most `depth` literals, from 0 to 16.
    Cubes {
        input: &'a str,
        depth: u32,
    },
    /// Split a formula by lookahead into about `leaves` leaves, from 1 to 65,536.
    Look {
        input: &'a str,
        leaves: u32,
    },
    /// Cut a leaf in two, by its number among the cubes of a file, from 1 to 4,294,967,295, on the variable `on`, from 1 to 2^31 - 1, or on
    /// one that the rule chooses.
    Split {
        input: &'a str,
        cubes: &'a str,
        leaf: u32,
        on: Option<u32>,
    },
    /// Cut a leaf in two by lookahead, by the leaf's number among the cubes of a file, from 1 to 4,294,967,295.
    SplitByLook {
        input: &'a str,
        cubes: &'a str,
        leaf: u32,
    },
    /// Complete the cubes that the file `list` has, in any order, to a splitting tree.
    Complete {
        input: &'a str,
        list: &'a str,
    },
    /// Decide a formula as `Solve` does, by workers that connect to this port of 127.0.0.1, from 1 to 65,535.
    Serve {
        port: u16,
        input: &'a str,
        cubes: Option<&'a str>,
        proof: Option<&'a str>,
        options: Options,
    },
    /// Work for whoever serves this formula at this port of 127.0.0.1, from 1 to 65,535. The proof is written to a file if one is named.
    Work {
        port: u16,
        input: &'a str,
        proof: Option<&'a str>,
        options: Options,
    },
    /// Play `turns` turns of a cluster of this formula, from 0 to 100,000, which are drawn from the seed.
    Drill {
        input: &'a str,
        seed: u64,
        turns: u32,
    },
    /// Print the formula of a leaf, by its number among the cubes of a file, from 1 to 4,294,967,295.
    Leaf {
        input: &'a str,
        cubes: &'a str,
        leaf: u32,
    },
    /// Search under a leaf, by its number among the cubes of a file, from 1 to 4,294,967,295, or under each leaf from it to `to`, in turn.
    /// A search learns at most `limit` lemmas, from 1 to 2^47. The fragment is written to a file if one is named; with `grow`, while the
    /// leaves are searched.
    Refute {
        input: &'a str,
        cubes: &'a str,
        leaf: u32,
        to: Option<u32>,
        grow: bool,
        limit: u64,
        fragment: Option<&'a str>,
        printing: Printing,
        binary: bool,
    },
    /// Join the fragments of all leaves, from at least one file, into a proof, which is written to a file if one is named. A name `-`
    /// stands for the names that are on standard input.
    Join {
        input: &'a str,
        cubes: &'a str,
        proof: Option<&'a str>,
        fragments: Vec<&'a str>,
        printing: Printing,
        binary: bool,
    },
    /// Make a fragment of INPUT and write it to a file: from a proof of the formula of a leaf, by its number among the cubes of a file,
    /// from 1 to 4,294,967,295, which is a DRAT proof if `drat`; or from a LIDRUP text for all of these cubes, or for those of the leaves
    /// from `leaf` to `to`. Any of `leaf`, `to`, `lidrup` and `drat` may be given here; the run refuses what does not go together.
    Lift {
        input: &'a str,
        cubes: &'a str,
        leaf: Option<u32>,
        to: Option<u32>,
        lidrup: bool,
        drat: bool,
        proof: &'a str,
        fragment: &'a str,
        binary: bool,
    },
    /// Check the assignment in the output of a solver.
    Model {
        input: &'a str,
        output: &'a str,
    },
    /// Write the part of a proof that its empty clause needs to a file.
    Trim {
        input: &'a str,
        proof: &'a str,
        out: &'a str,
        binary: bool,
    },
    /// Make an LRAT proof of a DRAT proof, and write it to a file. If `progress` is true, the run tells how far it has come.
    Elaborate {
        input: &'a str,
        drat: &'a str,
        lrat: &'a str,
        progress: bool,
        binary: bool,
    },
    /// Check a log over the formula, and write to a file which of the log's clauses close leaves.
    Receipt {
        input: &'a str,
        cubes: &'a str,
        log: &'a str,
        receipt: &'a str,
    },
    /// Test whether receipts, at least one, close all leaves; `quiet` leaves out `c` lines. A name `-` stands for the names that are on
    /// standard input.
    Cover {
        input: &'a str,
        cubes: &'a str,
        receipts: Vec<&'a str>,
        quiet: bool,
    },
    /// Answer the queries between clauses that are given, line by line. The proof of all answers is written to a file if one is named. A
    /// query may have `limit` lemmas, from 1 to 1,000,000,000, or any number; if `witness` is false, `v` and `f` lines are left out.
    Session {
        input: &'a str,
        proof: Option<&'a str>,
        limit: Option<u64>,
        witness: bool,
    },
    /// Search as one worker of a cell, whose files are in a folder, under the formula or under a leaf, by its number among the cubes of a
    /// file, from 1 to 4,294,967,295. A seed gives the first order of the variables; else it is drawn. At most `limit` lemmas are learnt,
    /// from 1 to 1,000,000,000, or any number; `turn` of them, from 1 to 1,000,000, before others' lemmas are read again.
    Share {
        input: &'a str,
        folder: &'a str,
        cubes: Option<&'a str>,
        leaf: Option<u32>,
        seed: Option<u64>,
        limit: Option<u64>,
        turn: u64,
        printing: Printing,
    },
    /// Weave the logs of a cell in a folder into one log, and write it to a file: for the whole formula, or for the cubes of a file.
    Weave {
        input: &'a str,
        folder: &'a str,
        log: &'a str,
        cubes: Option<&'a str>,
        binary: bool,
    },
}

/// A request, and whether the limits on its input are the large ones.
#[derive(Drop, PartialEq, Eq)]
pub struct Command<'a> {
    pub request: Request<'a>,
    pub large: bool,
}

/// Why a command line makes no request.
#[derive(Debug, Drop, Error)]
pub enum UsageFault {
    /// Help was asked for, or the version: the text to print.
    #[error("{0}")]
    Help(String),
    /// The words are refused.
    #[error("the words are refused")]
    Usage,
    /// Memory was refused.
    #[error("no memory")]
    NoMemory,
}

impl From<AllocError> for UsageFault {
    ghost from_gives = { λ _ e. e ≡ NoMemory };

    fn from(_e: AllocError) -> UsageFault {
        UsageFault::NoMemory
    }
}
