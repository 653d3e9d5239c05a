//! The number of a worker.

ghost use Rattle.std.specs.Prelude.{◌≡◌, ◌≤◌};

use std::marker::Model;

/// The number of a worker, 1 to 64.
#[derive(Clone, Copy, Debug, PartialEq, Eq)]
pub struct WorkerNumber {
    number: u32,
}

impl Model for WorkerNumber {
    ghost use Rattle.std.specs.Prelude.{ℕ, ◌≤◌};

    ghost Value = { ℕ };

    ghost view = { λ w. w.number };

    ghost invariant = { λ w. (1 ≤ w.number) × (w.number ≤ 64) };

    ghost inverse = { λ n. record { number = n } };
}

impl WorkerNumber {
    /// The number of a worker, from 1 to 64.
    pub fn new(number: u32) -> WorkerNumber
        requires above { 1 ≤ number }
        requires below { number ≤ 64 }
        ensures { result ≡ number }
    {
        WorkerNumber { number }
    }

    /// The number, 1 to 64.
    #[inline]
    pub fn number(self) -> u32
        ensures value { result ≡ self }
        ensures above { 1 ≤ result }
        ensures below { result ≤ 64 }
    {
        self.number
    }
}
