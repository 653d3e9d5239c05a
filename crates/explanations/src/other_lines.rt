//! The other lines of a report that say what is wrong.

ghost use Rattle.std.specs.Prelude.{◌≡◌, ◌≢◌, IfNone, IfSome};
ghost use Rattle.explanations.specs.Lines.{line_of};
ghost use Rattle.explanations.specs.declared.other_lines.Other.{Other};

use crate::sentences::{MEMORY, Told};

/// A line that says what is wrong and has no fault number.
#[derive(Clone, Copy)]
pub enum Other {
    /// The words are refused.
    Usage,
    /// The input cannot be read.
    InputUnread,
    /// The cubes cannot be read.
    CubesUnread,
    /// The proof cannot be read.
    ProofUnread,
    /// The answer cannot be read.
    AnswerUnread,
    /// The cubes have other clauses than the input.
    OtherFormula,
    /// The completed tree is above the limit.
    CubesAboveLimit,
    /// There is no such leaf.
    NoLeaf,
    /// The leaf cannot be cut.
    NoSplit,
    /// The formula of the leaf is above the limits.
    LeafAboveLimit,
    /// A DRAT proof that is lifted needs a RAT lemma.
    NeedsRat,
    /// No listener or connection can be opened.
    NoLinks,
    /// A file cannot be written.
    ProofUnwritten,
    /// The logs of a cell close nothing.
    ClosesNothing,
    /// The logs of a cell changed between two readings.
    LogsChanged,
    /// The logs of a cell have too many lemmas for one log.
    TooManyLemmas,
    /// Memory was refused.
    NoMemory,
}

impl Other {
    /// The kind of this line; None if it is a line of another table, or of none.
    pub fn of(line: &str) -> Option<Other>
        ensures found { IfSome result (λ other. line.now ≡ line_of other) }
        ensures none { IfNone result ((other : Other) → line.now ≢ line_of other) }
    {
        match line {
            "c usage" => Some(Other::Usage),
            "c cannot read input" => Some(Other::InputUnread),
            "c cannot read cubes" => Some(Other::CubesUnread),
            "c cannot read proof" => Some(Other::ProofUnread),
            "c cannot read answer" => Some(Other::AnswerUnread),
            "c cubes of another formula" => Some(Other::OtherFormula),
            "c cubes above limit" => Some(Other::CubesAboveLimit),
            "c no such leaf" => Some(Other::NoLeaf),
            "c cannot split" => Some(Other::NoSplit),
            "c leaf above limit" => Some(Other::LeafAboveLimit),
            "c proof needs RAT" => Some(Other::NeedsRat),
            "c cannot open links" => Some(Other::NoLinks),
            "c cannot write proof" => Some(Other::ProofUnwritten),
            "c closes nothing" => Some(Other::ClosesNothing),
            "c logs have changed" => Some(Other::LogsChanged),
            "c too many lemmas" => Some(Other::TooManyLemmas),
            "c no memory" => Some(Other::NoMemory),
            _ => None,
        }
    }

    /// The two sentences for a line: what it means, and what to do.
    pub fn told(self) -> Told {
        let (sentence, remedy) = match self {
            Other::Usage => (
                "The words are not those of a command.",
                "`satcluster COMMAND --help` has them.",
            ),
            Other::InputUnread => ("INPUT cannot be read.", "Name a file that is there."),
            Other::CubesUnread => (
                "The file of cubes cannot be read.",
                "Name a file that is there.",
            ),
            Other::ProofUnread => ("PROOF cannot be read.", "Name a file that is there."),
            Other::AnswerUnread => (
                "The file with the answer cannot be read.",
                "Name a file that is there.",
            ),
            Other::OtherFormula => (
                "The tree has other clauses than INPUT, or in another order.",
                "Split this formula: `satcluster cubes INPUT`.",
            ),
            Other::CubesAboveLimit => (
                "The tree of the listed cubes has more than 65,536 leaves.",
                "Split less deep.",
            ),
            Other::NoLeaf => (
                "The tree has fewer leaves.",
                "Its cubes are lines that begin with `a`; the first one is leaf 1.",
            ),
            Other::NoSplit => (
                "The leaf cannot be cut in two, or not on this variable.",
                "Search under it without a limit.",
            ),
            Other::LeafAboveLimit => (
                "The leaf's formula would be above the limits of a formula.",
                "Name `--large`; or `satcluster refute` searches under it without printing it.",
            ),
            Other::NeedsRat => (
                "A lemma that is needed is RAT: it does not follow by unit propagation.",
                "Ask the solver for a proof without such steps (Kissat: `--no-factor`).",
            ),
            Other::NoLinks => (
                "A port cannot be opened, or nobody listens at it.",
                "Start `serve` first, and give it a port that is free.",
            ),
            Other::ProofUnwritten => (
                "PROOF cannot be written, or it is a file that is read.",
                "Name another file, in a folder that is there.",
            ),
            Other::ClosesNothing => (
                "No log of the cell has a lemma that closes the formula or a leaf.",
                "Let its workers go on: `satcluster share INPUT FOLDER`.",
            ),
            Other::LogsChanged => (
                "A log of the cell was cut or changed while it was read.",
                "Start `satcluster weave` again.",
            ),
            Other::TooManyLemmas => (
                "The logs have more lemmas than one log can number.",
                "Split the formula (`satcluster cubes`), and have a cell for each leaf.",
            ),
            Other::NoMemory => ("There was not memory enough.", MEMORY),
        };
        Told { sentence, remedy }
    }
}
