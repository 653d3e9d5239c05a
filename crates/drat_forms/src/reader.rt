//! The reader of a DRAT proof that comes in pieces.

ghost use Rattle.std.specs.Prelude.{◌≡◌, ◌≢◌, ◌≤◌, [], Ok, Err, MatchResult};
ghost use Rattle.drat_forms.specs.Reading.{start, takes, ends};
ghost use Rattle.drat_forms.specs.declared.fault.DratFault.TheVariants.{NoMemory};

use crate::fault::DratFault;
use crate::form::Form;
use crate::parts::Parts;
use std::alloc::Global;
use std::marker::Model;

/// Reads a proof that comes in pieces. It gives words: the code of each literal, from 2 on, 0 at the end of an addition and 1 at the end of
/// a deletion. Of the bytes it stores those at the beginning, until they tell the form.
pub struct Reader {
    alloc: Global,
    parts: Parts,
}

impl Drop for Reader {
    fn drop(self) {
        let Reader { alloc: _, parts: _ } = self;
    }
}

impl Model for Reader {
    ghost use Rattle.drat_forms.specs.Parts.{reading_of};
    ghost use Rattle.drat_forms.specs.Reading.{Reading};

    ghost Value = { Reading };

    ghost view = { λ r. reading_of r.parts };
}

impl Reader {
    /// A reader, which has read no byte, of a proof with variables up to `most`. It takes no memory.
    pub fn new(alloc: Global, most: u32) -> Reader
        requires { most ≤ 199999999 }
        ensures { result ≡ start most }
    {
        Reader {
            alloc,
            parts: Parts::new(alloc, most),
        }
    }

    /// Answers the form of the proof; `None` as long as its bytes do not tell.
    pub fn form(&self) -> Option<Form>
        ensures { result ≡ self.now.form }
    {
        self.parts.form
    }

    /// Lends the words that were read and not taken.
    pub fn words(&self) -> &[u32]
        ensures { result.now ≡ self.now.words }
    {
        &self.parts.words
    }

    /// Takes the words that were read.
    pub fn clear(&mut self)
        ensures { self.new ≡ record self.old { words = [] } }
    {
        self.parts.words.clear();
    }

    /// Reads the next piece of a proof, or answers the first fault. After a fault the reader is of no use. After the empty clause nothing is
    /// read.
    pub fn feed(&mut self, piece: &[u8]) -> Result<(), DratFault>
        ensures { MatchResult result
            (λ _. takes self.old piece.now ≡ Ok self.new)
            (λ fault. fault ≢ NoMemory → takes self.old piece.now ≡ Err fault) }
    {
        self.parts.take(self.alloc, piece)
    }

    /// Ends the proof, which may give a last word: no LF has to follow the last number of a text.
    pub fn finish(&mut self) -> Result<(), DratFault>
        ensures { MatchResult result
            (λ _. ends self.old.form self.old ≡ Ok self.new)
            (λ fault. fault ≢ NoMemory → ends self.old.form self.old ≡ Err fault) }
    {
        self.parts.end()
    }
}
