//! Answers: the end of a worker's search, and the answer of a verdict.

ghost use Rattle.std.specs.Prelude.{◌≡◌, ◌≤◌, ◌^◌, ◌<◌};
ghost use Rattle.frames.specs.Answers.{answer_number, answer_of, length_of};

use std::marker::Model;

/// The length of a proof in bytes, at least 1.
#[derive(Clone, Copy, Debug, PartialEq, Eq)]
pub struct ProofLength {
    bytes: u32,
}

impl Model for ProofLength {
    ghost use Rattle.std.specs.Prelude.{ℕ, ◌≤◌};

    ghost Value = { ℕ };

    ghost view = { λ l. l.bytes };

    ghost invariant = { λ l. 1 ≤ l.bytes };

    ghost inverse = { λ n. record { bytes = n } };
}

impl ProofLength {
    /// The length of a proof of `bytes` bytes.
    pub fn new(bytes: u32) -> ProofLength
        requires { 1 ≤ bytes }
        ensures { result ≡ bytes }
    {
        ProofLength { bytes }
    }

    /// The number of bytes, at least 1.
    #[inline]
    pub fn bytes(self) -> u32
        ensures value { result ≡ self }
        ensures above { 1 ≤ result }
    {
        self.bytes
    }
}

/// An answer that decides a formula.
#[derive(Clone, Copy, Debug, PartialEq, Eq)]
pub enum Answer {
    /// No assignment satisfies the formula.
    Refuted,
    /// An assignment satisfies the formula.
    Assignment,
}

impl Answer {
    /// The number of the answer in a frame.
    pub fn number(self) -> u8
        ensures { result ≡ answer_number self }
    {
        match self {
            Answer::Refuted => 1,
            Answer::Assignment => 2,
        }
    }
}

/// An answer that decides a formula, with the length in bytes of its evidence.
#[derive(Clone, Copy, Debug, PartialEq, Eq)]
pub enum Finding {
    /// No assignment satisfies the formula; a proof of this length shows it.
    Refuted { length: ProofLength },
    /// An assignment satisfies the formula; it is sent as one byte for each variable.
    Assignment { length: u32 },
}

impl Finding {
    /// The answer without its length.
    pub fn answer(&self) -> Answer
        ensures { result ≡ answer_of self.now }
    {
        match self {
            Finding::Refuted { .. } => Answer::Refuted,
            Finding::Assignment { .. } => Answer::Assignment,
        }
    }

    /// The length in bytes of the evidence.
    pub fn length(&self) -> u32
        ensures { result ≡ length_of self.now }
    {
        match self {
            Finding::Refuted { length } => length.bytes(),
            Finding::Assignment { length } => *length,
        }
    }
}

/// The end of a search.
#[derive(Clone, Copy, Debug, PartialEq, Eq)]
pub enum Ending {
    /// The search decided the formula under its cube.
    Decided(Finding),
    /// The search reached its limit first.
    Limit,
}
