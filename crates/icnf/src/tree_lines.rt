//! The parser of an iCNF text for a given formula that takes one line at a time.

ghost use Rattle.std.specs.Prelude.{◌≡◌, ℕ, ◌+◌, ◌∷◌, [], Option, None, MatchResult};
ghost use Rattle.icnf.specs.Pieces.{TellsTree, read_behind};
ghost use Rattle.icnf.specs.ReadState.{ReadState};
ghost use Rattle.icnf.specs.inner.Lines.{IsKept, TakesRow, RefusesRow};
ghost use Rattle.icnf.specs.inner.TreeBody.{told_of};

use crate::cubes_fault::CubesFault;
use crate::fault::{IcnfFault, Kind};
use crate::header::read_header;
use crate::tree::Tree;
use crate::tree_body::TreeBody;
use dimacs::words::is_blank;
use dimacs::{Formula, Limits};
use lrat_text::TakesLines;
use std::alloc::{AllocError, Global};

/// The parser's state after the first lines of a text.
pub(crate) struct TreeLines {
    /// The allocator for the tree.
    pub(crate) alloc: Global,
    /// The limits of the text's formula.
    pub(crate) limits: Limits,
    /// The given formula.
    pub(crate) formula: Formula,
    /// The number of lines that were read.
    pub(crate) count: u64,
    /// The state after the header; `None` before it was read.
    pub(crate) body: Option<TreeBody>,
}

impl Drop for TreeLines {
    fn drop(self) {
        let TreeLines {
            alloc: _,
            limits: _,
            formula: _,
            count: _,
            body: _,
        } = self;
    }
}

/// Reads the line of this number (from 1), before, at or after the header.
fn read_line(
    alloc: Global,
    limits: Limits,
    formula: &Formula,
    body: &mut Option<TreeBody>,
    number: u64,
    line: &[u8],
) -> Result<(), IcnfFault>
    ensures { (before : ℕ) → number ≡ before + 1 → (s : Option ReadState) → IsKept formula.now s body.old → MatchResult result
        (λ _. TakesRow limits formula.now before line.now number body.new s)
        (λ fault. RefusesRow limits before line.now fault s) }
{
    match body {
        Some(rows) => {
            rows.read_line(formula, number, line)?;
            Ok(())
        }
        None => {
            if is_blank(line) {
                return Ok(());
            }
            read_header(number, line)?;
            *body = Some(TreeBody::new(alloc, limits));
            Ok(())
        }
    }
}

impl TakesLines for TreeLines {
    ghost use Rattle.icnf.specs.inner.Lines.{MayTake, TakesLine, RefusesLine};

    type Fault = IcnfFault;

    ghost may_take = { MayTake };

    ghost takes = { TakesLine };

    ghost refuses = { RefusesLine };

    /// Reads the next line. A line whose number exceeds 64 bits is refused as `NoMemory`.
    fn take_line(&mut self, line: &[u8]) -> Result<(), IcnfFault> {
        match self.count.checked_add(1) {
            Some(count) => self.count = count,
            None => return Err(IcnfFault::from(AllocError)),
        }
        read_line(
            self.alloc,
            self.limits,
            &self.formula,
            &mut self.body,
            self.count,
            line,
        )?;
        Ok(())
    }
}

/// Answers the tree of a text that was read to its end, or `OtherFormula` if its clauses are not the formula's, or the text's fault.
fn told_of(read: Result<(bool, Tree), IcnfFault>) -> Result<Tree, CubesFault>
    ensures { result ≡ told_of read }
{
    match read {
        Ok((true, tree)) => Ok(tree),
        Ok((false, _)) => Err(CubesFault::OtherFormula),
        Err(fault) => Err(CubesFault::Faulty(fault)),
    }
}

impl TreeLines {
    /// A parser that has read no line.
    pub(crate) fn new(alloc: Global, limits: Limits, formula: Formula) -> TreeLines
        ensures { result ≡ record { alloc = alloc; limits = limits; formula = formula; count = 0; body = None } }
    {
        TreeLines {
            alloc,
            limits,
            formula,
            count: 0,
            body: None,
        }
    }

    /// Answers the tree if the text ends after the lines that were read, or the fault.
    fn end(self) -> Result<Tree, CubesFault>
        ensures { (s : Option ReadState) → IsKept self.formula s self.body → TellsTree self.formula (read_behind self.limits self.count s []) result }
    {
        let TreeLines {
            formula,
            count,
            body,
            alloc: _,
            limits: _,
        } = self;
        match body {
            Some(body) => told_of(body.finish(&formula, count)),
            None => Err(CubesFault::Faulty(IcnfFault {
                kind: Kind::NoHeader,
                line: count,
            })),
        }
    }

    /// Answers the tree if this is the text's last line, which has no LF, or the fault.
    pub(crate) fn finish(self, last: &[u8]) -> Result<Tree, CubesFault>
        ensures { (s : Option ReadState) → IsKept self.formula s self.body → TellsTree self.formula (read_behind self.limits self.count s (last.now ∷ [])) result }
    {
        let mut lines = self;
        match lines.take_line(last) {
            Ok(()) => lines.end(),
            Err(fault) => Err(CubesFault::Faulty(fault)),
        }
    }
}
