//! Checks the lines of logs, and appends each line to the joined proof.

ghost use Rattle.std.specs.Prelude.{◌≡◌, ◌≤◌, ◌||◌, true, false, All, IfOk, IsTrue, OnOk};
ghost use Rattle.leaves.specs.inner.CheckedLines.{BeginsLog, WritesPartialDeletion, EndsLog, HandsOver, SettlesLog, TellsLemma};
ghost use Rattle.lrat_text.specs.Grammar.{IsClauseNumber};

use log_join::{LogJoinFault, LogJoiner, joiner_states};
use lrat_check::{CheckFault, LogChecker};
use lrat_text::{StepRef, TakesLines};

/// Why a line is refused.
#[derive(Clone, Copy, Debug, PartialEq, Eq)]
pub(crate) enum LineFault {
    /// The checker refuses the line with this fault.
    Log(CheckFault),
    /// The line is one of the log, but cannot be appended to the proof.
    Gather(LogJoinFault),
}

/// The checker of the lines of logs, and the joiner that appends them to the proof with new numbers.
pub(crate) struct CheckedLines {
    /// Checks the lines of the log that is being read.
    pub(crate) checker: LogChecker,
    /// Knows the new numbers of the log's clauses, and which leaves are closed.
    pub(crate) joiner: LogJoiner,
    /// The bytes of the proof that are not handed out yet.
    pub(crate) out: Vec<u8>,
}

impl Drop for CheckedLines {
    fn drop(self) {
        let CheckedLines {
            checker: _,
            joiner: _,
            out: _,
        } = self;
    }
}

impl TakesLines for CheckedLines {
    ghost use Rattle.leaves.specs.inner.CheckedLines.{AnyLine, LineTaken, LineRefused};

    type Fault = LineFault;

    ghost may_take = { AnyLine };

    ghost takes = { LineTaken };

    ghost refuses = { LineRefused };

    /// Checks the next line of a log, and appends it to the joined proof under its new numbers. Of
    /// a deletion that is refused, the proof gets the part that the checker has carried out.
    fn take_line(&mut self, line: &[u8]) -> Result<(), LineFault> {
        let _ = self.checker.most(); // its contract bounds the limit of the variables
        match self.checker.take(line) {
            Ok(()) => {}
            Err(fault) => {
                return match self.cut() {
                    Ok(()) => Err(LineFault::Log(fault)),
                    Err(fault) => Err(LineFault::Gather(fault)),
                };
            }
        }
        match self.joiner.line(self.checker.step(), &mut self.out) {
            Ok(()) => Ok(()),
            Err(fault) => Err(LineFault::Gather(fault)),
        }
    }
}

/// Answers whether each is a clause number, from 1 to 2^48 - 1. Those read from a line are, but no
/// contract says it of a line that was refused, so `cut` tests it.
fn are_clause_numbers(ids: &[u64]) -> bool
    ensures { IsTrue result → All IsClauseNumber ids.now }
{
    ids.iter().all(|id| 1 <= *id && *id < 1 << 48)
}

/// Answers whether at least one of the two holds. Unlike `||`, it evaluates both arguments, so that
/// each lemma is handed over.
fn either(one: bool, other: bool) -> bool
    ensures { result ≡ (one || other) }
{
    one || other
}

impl CheckedLines {
    /// Appends to the proof the part of a refused deletion that the checker has carried out, so
    /// that both delete the same lemmas. Err if a number is too long or memory is refused.
    fn cut(&mut self) -> Result<(), LogJoinFault>
        ensures { OnOk result (WritesPartialDeletion self.old self.new) }
    {
        let cut = self.checker.cut();
        if cut == 0 {
            return Ok(());
        }
        let StepRef::Delete { ids } = self.checker.step() else {
            return Ok(());
        };
        let ids = &ids[..cut.min(ids.len())];
        if !are_clause_numbers(ids) {
            return Err(LogJoinFault::TooLong);
        }
        self.joiner.line(StepRef::Delete { ids }, &mut self.out)
    }

    /// Begins the next log, before its first line.
    pub(crate) fn begin(&mut self)
        ensures { BeginsLog self.old self.new }
    {
        self.checker.begin();
        self.joiner.begin();
    }

    /// Hands a lemma of an accepted log to the joiner, if it is live at the log's end: it closes
    /// the open leaves that it can. Answers whether it closes one.
    fn settle_at(&mut self, number: u64) -> Result<bool, LogJoinFault>
        requires { 1 ≤ number }
        ensures over { OnOk result (HandsOver true number self.old self.new) }
        ensures told { IfOk result (TellsLemma number self.old self.new) }
        ensures checker { self.new.checker ≡ self.old.checker }
        ensures out { self.new.out ≡ self.old.out }
    {
        match self.checker.clause(number) {
            Some(lits) => self.joiner.settle(number, lits),
            None => Ok(false),
        }
    }

    /// Hands a lemma of a refused log to the joiner, if it is live at the log's end: it closes no
    /// leaf, and is deleted in the proof.
    fn spend_at(&mut self, number: u64) -> Result<(), LogJoinFault>
        requires { 1 ≤ number }
        ensures over { OnOk result (HandsOver false number self.old self.new) }
        ensures checker { self.new.checker ≡ self.old.checker }
        ensures out { self.new.out ≡ self.old.out }
    {
        match self.checker.clause(number) {
            Some(_) => self.joiner.spend(number),
            None => Ok(()),
        }
    }

    /// Hands the lemma of this number to the joiner, if the lemma is live. Answers whether it closes an open leaf; never if the log is not
    /// accepted.
    fn hand_over(&mut self, number: u64, accepted: bool) -> Result<bool, LogJoinFault>
        requires { 1 ≤ number }
        ensures over { OnOk result (HandsOver accepted number self.old self.new) }
        ensures told { IfOk result (λ b. accepted ≡ true → TellsLemma number self.old self.new b) }
        ensures checker { self.new.checker ≡ self.old.checker }
        ensures out { self.new.out ≡ self.old.out }
    {
        if accepted {
            return self.settle_at(number);
        }
        self.spend_at(number)?;
        Ok(false)
    }

    /// Hands the live lemmas of a log that has ended to the joiner, by rising numbers. Answers
    /// whether one of them closes an open leaf; never if the log is not accepted.
    fn settle(&mut self, accepted: bool) -> Result<bool, LogJoinFault>
        ensures { IfOk result (SettlesLog accepted self.old self.new) }
    {
        joiner_states();
        let mut closes = false;
        for number in self.checker.base() + 1..self.checker.top() + 1 {
            let closed = self.hand_over(number, accepted)?;
            closes = either(closes, closed);
        }
        Ok(closes)
    }

    /// Ends the log, accepted or not. Its lemmas that close no leaf are deleted in the proof. Answers whether a lemma closes an open leaf.
    pub(crate) fn end(&mut self, accepted: bool) -> Result<bool, LogJoinFault>
        ensures { IfOk result (EndsLog accepted self.old self.new) }
    {
        let closes = self.settle(accepted)?;
        self.joiner.end(&mut self.out)?;
        Ok(closes)
    }
}
