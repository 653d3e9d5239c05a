//! A formula with its splitting tree, and the reader of both.

ghost use Rattle.std.specs.Prelude.{◌≡◌, ◌++◌, ℕ, List, [], IfOk};
ghost use Rattle.dimacs.specs.logic.Cnf.{Cnf, AreWithin, greatest_in};
ghost use Rattle.dimacs.specs.logic.Limits.{Limits};
ghost use Rattle.leaves.specs.inner.SplitReader.{HasReadSomeText};

use dimacs::{Formula, Limits};
use icnf::{CubesFault, Tree, TreeReader};
use std::alloc::{AllocError, Global};

/// A formula, and a splitting tree over variables of its clauses.
#[derive(Drop)]
pub struct Split {
    /// The formula.
    pub(crate) formula: Formula,
    /// The tree.
    pub(crate) tree: Tree,
    ghost within: { AreWithin formula.vars tree },
    ghost among: { AreWithin (greatest_in formula.clauses) tree },
}

impl Split {
    /// The formula.
    pub fn formula(&self) -> &Formula
        ensures { result.now ≡ self.now.formula }
    {
        &self.formula
    }

    /// The tree.
    pub fn tree(&self) -> &Tree
        ensures { result.now ≡ self.now.tree }
    {
        &self.tree
    }
}

/// Reads the tree of a formula from an iCNF text, which has the formula's clauses and the cubes. The text comes in pieces.
pub struct SplitReader {
    /// The formula whose clauses the text has to have.
    formula: Formula,
    /// Reads the text's clauses and cubes.
    reader: TreeReader,
    ghost reading: { ∥ HasReadSomeText formula reader ∥₁ },
}

impl Drop for SplitReader {
    fn drop(self) {
        let SplitReader {
            formula: _,
            reader: _,
        } = self;
    }
}

impl SplitReader {
    ghost use Rattle.leaves.specs.SplitReader.{HasReadText, HasReadTextWithin, TellsSplitWithin};

    /// A reader that has read no byte of a text within the written limits. The formula's clauses are shared, not copied.
    pub fn new(alloc: Global, formula: Formula) -> Result<SplitReader, AllocError>
        ensures { IfOk result (HasReadText formula []) }
    {
        SplitReader::within(alloc, Limits::written(), formula)
    }

    /// A reader that has read no byte of a text within these limits. The formula's clauses are shared, not copied.
    pub fn within(
        alloc: Global,
        limits: Limits,
        formula: Formula,
    ) -> Result<SplitReader, AllocError>
        ensures { IfOk result (HasReadTextWithin limits formula []) }
    {
        let reader = TreeReader::within(alloc, limits, &formula)?;
        Ok(SplitReader { formula, reader })
    }

    /// Reads the next piece of the text. A fault is kept for `finish`.
    pub fn feed(&mut self, piece: &[u8])
        ensures { (L : Limits) (F : Cnf) (bytes : List ℕ) → HasReadTextWithin L F bytes self.old → HasReadTextWithin L F (bytes ++ piece.now) self.new }
    {
        self.reader.feed(piece);
    }

    /// Ends the text, and answers the formula with the tree that the text spells. Err has the first fault of the text; or, if it has none,
    /// that its clauses are not those of the formula.
    pub fn finish(self) -> Result<Split, CubesFault>
        ensures { (L : Limits) (F : Cnf) (bytes : List ℕ) → HasReadTextWithin L F bytes self → TellsSplitWithin L F bytes result }
    {
        let SplitReader { formula, reader } = self;
        let tree = reader.finish()?;
        Ok(Split { formula, tree })
    }
}
