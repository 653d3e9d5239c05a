//! The reader of a splitting tree from an iCNF text that comes in pieces. The text is read for a given formula, and none of its clauses is
//! stored.

ghost use Rattle.std.specs.Prelude.{◌≡◌, ℕ, List, [], ◌++◌, Result, IfOk, MatchResult};
ghost use Rattle.dimacs.specs.logic.Cnf.{Cnf, AreWithin};
ghost use Rattle.dimacs.specs.logic.Limits.{Limits};
ghost use Rattle.dimacs.specs.text.Rows.{Answers};
ghost use Rattle.icnf.specs.Leaves.{Cube};
ghost use Rattle.icnf.specs.Pieces.{HasRead, HasReadWithin, SpellsTree, SpellsTreeWithin, Tells, TellsTree};
ghost use Rattle.icnf.specs.Parser.{no_memory, parse, parse_within};
ghost use Rattle.icnf.specs.inner.Lines.{LeadsTo, RefusesText};

use crate::cubes_fault::CubesFault;
use crate::fault::IcnfFault;
use crate::tree::Tree;
use crate::tree_lines::TreeLines;
use dimacs::{Formula, Limits};
use lrat_text::{LineBuffer, PieceFault};
use std::alloc::{AllocError, Global};
use std::marker::Model;

/// Reads the next piece, which continues the incomplete line `begun`.
fn take_piece(begun: &mut LineBuffer, lines: &mut TreeLines, piece: &[u8]) -> Result<(), IcnfFault>
    ensures { MatchResult result
        (λ _. LeadsTo lines.old (begun.old ++ piece.now) lines.new begun.new)
        (λ fault. RefusesText lines.old (begun.old ++ piece.now) fault) }
{
    match begun.feed(piece, lines) {
        Ok(()) => Ok(()),
        Err(PieceFault::NoMemory) => Err(IcnfFault::from(AllocError)),
        Err(PieceFault::Line(fault)) => Err(fault),
    }
}

/// Reads the tree of a formula from an iCNF text in pieces. It compares the text's clauses with the formula's and stores none of them. Of
/// the text it stores only the incomplete line.
pub struct TreeReader {
    /// The parser's state after the complete lines.
    lines: TreeLines,
    /// The incomplete line.
    begun: LineBuffer,
    /// The first fault, once it was met; also a refusal of memory.
    fault: Option<IcnfFault>,
}

impl Drop for TreeReader {
    fn drop(self) {
        let TreeReader {
            lines: _,
            begun: _,
            fault: _,
        } = self;
    }
}

impl Model for TreeReader {
    ghost use Rattle.icnf.specs.Pieces.{Progress, progress_of};

    ghost Value = { Progress };

    ghost view = { λ r. progress_of r.fault r.lines.limits r.lines.formula r.lines.count r.lines.body r.begun };
}

impl TreeReader {
    /// A reader, which has read no byte, of a text within the written limits. The formula's clauses are shared, not copied.
    pub fn new(alloc: Global, formula: &Formula) -> Result<TreeReader, AllocError>
        ensures { IfOk result (λ r. HasRead formula.now r []) }
    {
        TreeReader::within(alloc, Limits::written(), formula)
    }

    /// A reader, which has read no byte, of a text within these limits. The formula's clauses are shared, not copied.
    pub fn within(
        alloc: Global,
        limits: Limits,
        formula: &Formula,
    ) -> Result<TreeReader, AllocError>
        ensures { IfOk result (λ r. HasReadWithin limits formula.now r []) }
    {
        Ok(TreeReader {
            lines: TreeLines::new(alloc, limits, formula.copy()?),
            begun: LineBuffer::new(alloc),
            fault: None,
        })
    }

    /// Reads the next piece. A fault is kept for `finish`.
    pub fn feed(&mut self, piece: &[u8])
        ensures { (L : Limits) (F : Cnf) (bytes : List ℕ) → HasReadWithin L F self.old bytes → HasReadWithin L F self.new (bytes ++ piece.now) }
    {
        if self.fault.is_some() {
            return;
        }
        match take_piece(&mut self.begun, &mut self.lines, piece) {
            Ok(()) => {}
            Err(fault) => self.fault = Some(fault),
        }
    }

    /// Answers the tree of the pieces, if their clauses are the formula's. An `Err` is the first fault of their text, or `OtherFormula` if
    /// it has none.
    pub fn finish(self) -> Result<Tree, CubesFault>
        // What is returned is true of the text, unless memory was refused.
        ensures exact { (L : Limits) (F : Cnf) (bytes : List ℕ) → HasReadWithin L F self bytes → TellsTree F (parse_within L bytes) result }
        // What is true of the text is returned, unless memory was refused.
        ensures only { (L : Limits) (F : Cnf) (bytes : List ℕ) → HasReadWithin L F self bytes → (expected : Result (List Cube) CubesFault) → Tells F (parse_within L bytes) expected → Answers (CubesFault.Faulty no_memory) result expected }
        // The text spells the formula's clauses and the tree.
        ensures found { (L : Limits) (F : Cnf) (bytes : List ℕ) → HasReadWithin L F self bytes → IfOk result (λ tree. SpellsTreeWithin L F bytes tree) }
        // The tree's variables are the formula's.
        ensures within { (L : Limits) (F : Cnf) (bytes : List ℕ) → HasReadWithin L F self bytes → IfOk result (λ tree. AreWithin F.vars tree) }
    {
        let TreeReader {
            lines,
            begun,
            fault,
        } = self;
        let _ = lines.formula.vars(); // its contract says that the formula is within its limits
        let _ = lines.limits.vars(); // and its contract that the limits are no more than the large ones
        match fault {
            Some(fault) => Err(CubesFault::Faulty(fault)),
            None => lines.finish(begun.as_slice()),
        }
    }
}

/// Reads the tree of an iCNF text within these limits, if its clauses are the formula's. An `Err` is the first fault of the text, or
/// `OtherFormula` if it has none.
pub fn tree_within(
    alloc: Global,
    limits: Limits,
    formula: &Formula,
    text: &[u8],
) -> Result<Tree, CubesFault>
    // What is returned is true of the text, unless memory was refused.
    ensures exact { TellsTree formula.now (parse_within limits text.now) result }
    // What is true of the text is returned, unless memory was refused.
    ensures only { (expected : Result (List Cube) CubesFault) → Tells formula.now (parse_within limits text.now) expected → Answers (CubesFault.Faulty no_memory) result expected }
    // The text spells the formula's clauses and the tree.
    ensures found { IfOk result (λ tree. SpellsTreeWithin limits formula.now text.now tree) }
    // The tree's variables are the formula's.
    ensures within { IfOk result (λ tree. AreWithin formula.now.vars tree) }
{
    match TreeReader::within(alloc, limits, formula) {
        Ok(mut reader) => {
            reader.feed(text);
            reader.finish()
        }
        Err(error) => Err(CubesFault::Faulty(IcnfFault::from(error))),
    }
}

/// Reads the tree of an iCNF text within the written limits, if its clauses are the formula's. An `Err` is the first fault of the text, or
/// `OtherFormula` if it has none.
pub fn tree_of(alloc: Global, formula: &Formula, text: &[u8]) -> Result<Tree, CubesFault>
    // What is returned is true of the text, unless memory was refused.
    ensures exact { TellsTree formula.now (parse text.now) result }
    // What is true of the text is returned, unless memory was refused.
    ensures only { (expected : Result (List Cube) CubesFault) → Tells formula.now (parse text.now) expected → Answers (CubesFault.Faulty no_memory) result expected }
    // The text spells the formula's clauses and the tree.
    ensures found { IfOk result (λ tree. SpellsTree formula.now text.now tree) }
    // The tree's variables are the formula's.
    ensures within { IfOk result (λ tree. AreWithin formula.now.vars tree) }
{
    tree_within(alloc, Limits::written(), formula, text)
}
