//! The test whether a solver's answer satisfies a formula.

ghost use Rattle.std.specs.Prelude.{◌≡◌, ◌++◌, ℕ, List, [], IfOk, Result};
ghost use Rattle.dimacs.specs.logic.Propagation.{Assumed};
ghost use Rattle.answers.specs.Reports.{IsModelReport, IsReport};
ghost use Rattle.answers.specs.Pieces.{GivesNamed, HasRead};

use crate::fault::{AnswerFault, Kind};
use crate::named_literals::Named;
use crate::reader::AnswerReader;
use crate::report::{ModelReport, judged, refused};
use dimacs::Formula;
use std::alloc::{AllocError, Global};
use std::marker::Model;

/// A test of a solver's answer, which is read piece by piece, against a formula.
pub struct ModelCheck {
    alloc: Global,
    formula: Formula,
    reader: AnswerReader,
}

impl Drop for ModelCheck {
    fn drop(self) {
        let ModelCheck {
            alloc: _,
            formula: _,
            reader: _,
        } = self;
    }
}

impl Model for ModelCheck {
    ghost use Rattle.answers.specs.Reports.{Checking};

    ghost Value = { Checking };

    ghost view = { λ c. record { formula = c.formula; progress = c.reader } };
}

/// Makes the report of the literals that an answer names, or of its fault. It is an error if memory was refused.
fn reported(
    alloc: Global,
    formula: &Formula,
    found: Result<Named, AnswerFault>,
) -> Result<ModelReport, AllocError>
    ensures { (expected : Result Assumed AnswerFault) → GivesNamed found expected → IfOk result (IsReport formula.now expected) }
{
    match found {
        Ok(named) => judged(alloc, named.first_missed(formula)),
        Err(fault) if fault.kind == Kind::NoMemory => Err(AllocError),
        Err(fault) => refused(alloc, fault),
    }
}

impl ModelCheck {
    /// A test of a formula that has read no byte of an answer.
    pub fn of(alloc: Global, formula: Formula) -> ModelCheck
        ensures formula { result.formula ≡ formula }
        ensures read { HasRead result.progress [] }
    {
        ModelCheck {
            alloc,
            formula,
            reader: AnswerReader::new(alloc),
        }
    }

    /// Reads the next piece of the answer. A fault is kept for `finish`.
    pub fn feed(&mut self, piece: &[u8])
        ensures formula { self.new.formula ≡ self.old.formula }
        ensures read { (bytes : List ℕ) → HasRead self.old.progress bytes → HasRead self.new.progress (bytes ++ piece.now) }
    {
        self.reader.feed(piece)
    }

    /// Ends the text, and makes the report: its status is 0 exactly if the answer names literals, none with its negation, of which each
    /// clause has one; then some assignment satisfies the formula. It is an error if memory was refused.
    pub fn finish(self) -> Result<ModelReport, AllocError>
        ensures { (bytes : List ℕ) → HasRead self.progress bytes → IfOk result (IsModelReport self.formula bytes) }
    {
        let ModelCheck {
            alloc,
            formula,
            reader,
        } = self;
        reported(alloc, &formula, reader.finish())
    }
}
