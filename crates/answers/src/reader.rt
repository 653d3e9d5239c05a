//! The reader of a solver's answer, which comes in pieces.

ghost use Rattle.std.specs.Prelude.{ℕ, List, [], ◌++◌};
ghost use Rattle.answers.specs.Pieces.{GivesNamed, HasRead};
ghost use Rattle.answers.specs.Parse.{answer_of};

use crate::fault::AnswerFault;
use crate::lines::AnswerLines;
use crate::named_literals::Named;
use std::alloc::Global;
use std::marker::Model;

/// A reader of a solver's answer, which comes in pieces. It keeps a table of the literals that are named, and of the text only a token that
/// is begun.
#[derive(Drop)]
pub struct AnswerReader {
    lines: AnswerLines,
    /// The first fault of the text, if one was found.
    fault: Option<AnswerFault>,
}

impl Model for AnswerReader {
    ghost use Rattle.answers.specs.Pieces.{Progress, progress_of};

    ghost Value = { Progress };

    ghost view = { λ r. progress_of r.fault r.lines };
}

impl AnswerReader {
    /// A reader that has read no byte.
    pub fn new(alloc: Global) -> AnswerReader
        ensures { HasRead result [] }
    {
        AnswerReader {
            lines: AnswerLines::new(alloc),
            fault: None,
        }
    }

    /// Reads the next piece of the text. A fault is kept for `finish`.
    pub fn feed(&mut self, piece: &[u8])
        ensures { (bytes : List ℕ) → HasRead self.old bytes → HasRead self.new (bytes ++ piece.now) }
    {
        if self.fault.is_some() {
            return;
        }
        match self.lines.take(piece) {
            Ok(()) => {}
            Err(fault) => self.fault = Some(fault),
        }
    }

    /// Ends the text. Returns the literals that it names, or its first fault.
    pub fn finish(self) -> Result<Named, AnswerFault>
        ensures { (bytes : List ℕ) → HasRead self bytes → GivesNamed result (answer_of bytes) }
    {
        let AnswerReader { lines, fault } = self;
        match fault {
            Some(fault) => Err(fault),
            None => lines.finish(),
        }
    }
}
