//! The text of a log, under the numbers that its clauses have among all clauses.

ghost use Rattle.std.specs.Prelude.{◌≡◌, ℕ, ◌^◌, ◌<◌, false, List, [], map, slice_index_or, All, MatchBool, MatchOption, IfOk};
ghost use Rattle.lrat_text.specs.Grammar.{IsClauseNumber, IsStepWithin, SpellsStepWithin};
ghost use Rattle.lrat_text.specs.Steps.{step_of};
ghost use Rattle.lrat_text.specs.declared.step.Step.{Step};
ghost use Rattle.dimacs.specs.logic.Literal.{var_of};
ghost use Rattle.elimination.specs.Kept.{HasEliminated};
ghost use Rattle.renumbered_logs.specs.Renumbered.{behind_all, GoesOn};
ghost use Rattle.renumbered_logs.specs.inner.RenumberedLines.{IsPut, CanBePut};

use dimacs::Lit;
use lrat_text::{StepBuffer, StepRef, TextFault, read_line_within};
use packed_text::{PackedLines, PackedText};
use std::alloc::{AllocError, Global};

/// 2^48: clause numbers are below this.
const CAP: u64 = 1 << 48;

/// No log has a greater variable, since no formula has.
const MAX_VAR: u32 = 199_999_999;

/// Reads a line into the buffer. Answers whether it spells a step.
fn read(buffer: &mut StepBuffer, line: &[u8]) -> Result<bool, AllocError>
    ensures { IfOk result (λ done. MatchBool done
        (SpellsStepWithin 199999999 line.now buffer.new)
        ((step : Step) → ¬ (SpellsStepWithin 199999999 line.now step))) }
{
    match read_line_within(buffer, MAX_VAR, line) {
        Ok(()) => Ok(true),
        Err(TextFault::NoMemory) => Err(AllocError),
        Err(_) => Ok(false),
    }
}

/// What goes on from line to line: a number, and buffers that are used again.
#[derive(Drop)]
struct Rewriter {
    /// The number of the last lemma that was written, with which a deletion's line begins; at first the number of all clauses.
    top: u64,
    /// The buffer for the new numbers of a line.
    numbers: Vec<u64>,
    /// The buffer for a line before it is packed.
    written: Vec<u8>,
}

/// The numbers that the clauses of a log over some clauses have among all of them.
#[derive(Clone, Copy)]
pub struct Renumbering<'a> {
    /// The numbers of the kept clauses among all, in ascending order.
    pub numbers: &'a [u64],
    /// How many clauses there are in all; lemmas come behind them.
    pub all: u64,
    /// Whether a variable is eliminated, by its number.
    pub eliminated: &'a [bool],
}

impl Renumbering<'_> {
    /// Returns the number among all clauses of what the log calls `number`. None if that is no
    /// clause number.
    fn moved(self, number: u64) -> Option<u64>
        requires number { IsClauseNumber number }
        requires all { IsClauseNumber self.all }
        ensures { MatchOption result
            (¬ (IsClauseNumber (behind_all self.entry.numbers.now self.entry.all number)))
            (λ moved. (moved ≡ behind_all self.entry.numbers.now self.entry.all number) × IsClauseNumber moved) }
    {
        let kept = self.numbers.len() as u64;
        let moved = if number <= kept {
            self.numbers[(number - 1) as usize]
        } else {
            number - kept + self.all
        };
        if moved == 0 || moved >= CAP {
            return None;
        }
        Some(moved)
    }

    /// Replaces the content of `out` by the numbers of these among all clauses. Answers false if one
    /// of them is no clause number.
    fn move_all(self, numbers: &[u64], out: &mut Vec<u64>) -> Result<bool, AllocError>
        requires numbers { All IsClauseNumber numbers.now }
        requires all { IsClauseNumber self.all }
        ensures { IfOk result (λ done. MatchBool done
            ((out.new.items ≡ map (behind_all self.entry.numbers.now self.entry.all) numbers.now) × All IsClauseNumber out.new.items)
            (¬ (All IsClauseNumber (map (behind_all self.entry.numbers.now self.entry.all) numbers.now)))) }
    {
        out.clear();
        for number in numbers {
            let Some(moved) = self.moved(*number) else {
                return Ok(false);
            };
            out.push(moved)?;
        }
        Ok(true)
    }

    /// Whether the literal's variable is eliminated.
    fn is_eliminated(self, literal: Lit) -> bool
        ensures { result ≡ slice_index_or self.entry.eliminated.now (var_of literal) false }
    {
        let place = literal.var().number() as usize;
        place < self.eliminated.len() && self.eliminated[place]
    }

    /// Whether a literal of the clause has an eliminated variable.
    fn has_eliminated(self, clause: &[Lit]) -> bool
        ensures { MatchBool result (HasEliminated self.entry.eliminated.now clause.now) (¬ (HasEliminated self.entry.eliminated.now clause.now)) }
    {
        clause.iter().any(|literal| self.is_eliminated(*literal))
    }

    /// Appends the line of a step under the numbers among all clauses. Answers false if a lemma
    /// names an eliminated variable or has groups, or if a new number is no clause number.
    fn put(
        self,
        rewriter: &mut Rewriter,
        text: &mut PackedText,
        step: StepRef<'_>,
    ) -> Result<bool, AllocError>
        requires all { IsClauseNumber self.all }
        requires top { IsClauseNumber rewriter.old.top }
        requires limits { IsStepWithin 199999999 (step_of step) }
        ensures { IfOk result (λ done. MatchBool done
            (IsPut self.entry.numbers.now self.entry.all self.entry.eliminated.now (step_of step.entry) rewriter.old.top rewriter.new.top text.old text.new)
            (¬ (CanBePut self.entry.numbers.now self.entry.all self.entry.eliminated.now (step_of step.entry)))) }
    {
        match step {
            StepRef::Add {
                id,
                lits,
                hints,
                groups,
            } => {
                if !groups.is_empty() || self.has_eliminated(lits) {
                    return Ok(false);
                }
                let Some(id) = self.moved(id) else {
                    return Ok(false);
                };
                if !self.move_all(hints, &mut rewriter.numbers)? {
                    return Ok(false);
                }
                let line = StepRef::Add {
                    id,
                    lits,
                    hints: &rewriter.numbers,
                    groups,
                };
                text.put_within(line, id, &mut rewriter.written)?;
                rewriter.top = id;
                Ok(true)
            }
            StepRef::Delete { ids } => {
                if !self.move_all(ids, &mut rewriter.numbers)? {
                    return Ok(false);
                }
                let line = StepRef::Delete {
                    ids: &rewriter.numbers,
                };
                text.put_within(line, rewriter.top, &mut rewriter.written)?;
                Ok(true)
            }
        }
    }

    /// Appends the lines of a log under the numbers among all clauses. The line of a deletion begins
    /// with the number of the last lemma before it, or of all clauses if there is none.
    ///
    /// Answers false if the log is not a text of steps, if a lemma names an eliminated variable or
    /// has groups, or if a new number is no clause number, from 1 to 2^48 - 1. Then, and after an
    /// `Err`, `text` is of no use: it may have some of the lines.
    ///
    /// The log is read once. Memory is taken for the new text, for a block and a line of the log,
    /// and for the line that is written.
    pub fn append(
        self,
        alloc: Global,
        text: &mut PackedText,
        log: &PackedText,
    ) -> Result<bool, AllocError>
        requires { IsClauseNumber self.all }
        ensures { IfOk result (λ done. MatchBool done
            (GoesOn self.entry.numbers.now self.entry.all self.entry.eliminated.now log.now text.old text.new)
            ((new : List ℕ) → ¬ (GoesOn self.entry.numbers.now self.entry.all self.entry.eliminated.now log.now text.old new))) }
    {
        let mut rewriter = Rewriter {
            top: self.all,
            numbers: Vec::new(alloc),
            written: Vec::new(alloc),
        };
        let mut buffer = StepBuffer::new(alloc);
        let mut lines = PackedLines::of(alloc, log);
        let mut line = Vec::new(alloc);
        while lines.next(&mut line)? {
            if !read(&mut buffer, &line)? {
                return Ok(false);
            }
            if !self.put(&mut rewriter, text, buffer.as_ref())? {
                return Ok(false);
            }
        }
        Ok(line.is_empty())
    }
}
