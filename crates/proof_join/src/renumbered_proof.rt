//! The renumbering of a proof, for a formula to which clauses were added at its end.

ghost use Rattle.std.specs.Prelude.{◌≡◌, ℕ, ◌+◌, ◌^◌, ◌<◌, ◌≤◌, [], ◌∷◌, ◌++◌, List, min, max, map, length, All, IfOk, MatchOption, MatchResult};
ghost use Rattle.lrat_text.specs.Grammar.{SpellsStep, IsStep, IsClauseNumber, IsGroup};
ghost use Rattle.lrat_text.specs.Steps.{step_of};
ghost use Rattle.lrat_text.specs.WrittenLine.{line_of};
ghost use Rattle.lrat_text.specs.declared.step.Step.{Step};
ghost use Rattle.proof_join.specs.RenumberedSteps.{renumbered, renumbered_group};
ghost use Rattle.proof_join.specs.RenumberedProof.{raised, LineFits, Renumbers};
ghost use Rattle.proof_join.specs.inner.RaisedLines.{IsPut, Unless};

use lrat_text::{Groups, StepBuffer, StepRef, TextFault, cut_line, put_ref, read_line};
use std::alloc::{AllocError, Global};

/// 2^48: clause numbers are below this.
const CAP: u64 = 281_474_976_710_656;

/// Why there is no renumbered text.
#[derive(Clone, Copy)]
enum Stop {
    /// By the definition there is no such text.
    NoText,
    /// Memory was refused.
    NoMemory,
}

/// The change of numbers: those above `above` are raised by `by`.
#[derive(Clone, Copy)]
struct Raise {
    above: u64,
    by: u64,
}

impl Raise {
    /// The raised number: those above the old formula's clauses are raised by the number of added
    /// clauses. None if it is no clause number, 2^48 or more.
    fn number(self, number: u64) -> Option<u64>
        requires { IsClauseNumber number }
        ensures { MatchOption result (2 ^ 48 ≤ raised self.above self.by number) (λ n. (n ≡ raised self.above self.by number) × IsClauseNumber n) }
    {
        if number <= self.above {
            return Some(number);
        }
        if self.by >= CAP - number {
            return None;
        }
        Some(number + self.by)
    }

    /// Overwrites `out` with the raised numbers of these; `NoText` if one of them is no clause number.
    fn numbers(self, numbers: &[u64], out: &mut Vec<u64>) -> Result<(), Stop>
        requires { All IsClauseNumber numbers.now }
        ensures { MatchResult result
            (λ _. (out.new.items ≡ map (raised self.above self.by) numbers.now) × All IsClauseNumber out.new.items)
            (λ stop. Unless stop (¬ (All IsClauseNumber (map (raised self.above self.by) numbers.now)))) }
    {
        out.clear();
        for number in numbers {
            let Some(raised) = self.number(*number) else {
                return Err(Stop::NoText);
            };
            match out.push(raised) {
                Ok(()) => {}
                Err(_) => return Err(Stop::NoMemory),
            }
        }
        Ok(())
    }

    /// Overwrites `out` with these groups under raised numbers; `NoText` if one of them is no clause number. `hints` is a buffer.
    fn groups(self, groups: &Groups, hints: &mut Vec<u64>, out: &mut Groups) -> Result<(), Stop>
        requires { All IsGroup groups.now }
        ensures { MatchResult result
            (λ _. (out.new ≡ map (renumbered_group (raised self.above self.by)) groups.now) × All IsGroup out.new)
            (λ stop. Unless stop (¬ (All IsGroup (map (renumbered_group (raised self.above self.by)) groups.now)))) }
    {
        out.clear();
        for i in 0..groups.len() {
            let (candidate, own) = groups.get(i);
            self.group(candidate, own, hints, out)?;
        }
        Ok(())
    }

    /// Appends a group under raised numbers to `out`; `NoText` if one of them is no clause number. `hints` is a buffer.
    fn group(
        self,
        candidate: u64,
        own: &[u64],
        hints: &mut Vec<u64>,
        out: &mut Groups,
    ) -> Result<(), Stop>
        requires { IsGroup (candidate, own.now) }
        ensures { MatchResult result
            (λ _. (out.new ≡ out.old ++ renumbered_group (raised self.above self.by) (candidate, own.now) ∷ []) × IsGroup (renumbered_group (raised self.above self.by) (candidate, own.now)))
            (λ stop. Unless stop (¬ (IsGroup (renumbered_group (raised self.above self.by) (candidate, own.now))))) }
    {
        let Some(candidate) = self.number(candidate) else {
            return Err(Stop::NoText);
        };
        self.numbers(own, hints)?;
        match out.push(candidate, hints) {
            Ok(()) => Ok(()),
            Err(_) => Err(Stop::NoMemory),
        }
    }
}

/// A text that is rewritten under raised numbers.
#[derive(Drop)]
struct Rewriter {
    /// The new text so far.
    out: Vec<u8>,
    /// The highest number that was added so far, 2^48 if it is greater; at first the number of clauses of the new formula.
    top: u64,
    /// A buffer for the raised numbers of a line.
    numbers: Vec<u64>,
    /// A buffer for the raised hints of a group.
    hints: Vec<u64>,
    /// A buffer for the raised groups of a line.
    groups: Groups,
}

/// Appends the line of a step; `NoText` if the text then has 2^32 bytes or more. The line of a
/// deletion begins with `top`.
fn put_short(out: &mut Vec<u8>, top: u64, step: StepRef<'_>) -> Result<(), Stop>
    requires limits { IsStep (step_of step) }
    requires numbered { IsClauseNumber top }
    ensures { MatchResult result
        (λ _. (out.new.items ≡ out.old.items ++ line_of top (step_of step.entry)) × (length out.new.items < 2 ^ 32))
        (λ stop. Unless stop (2 ^ 32 ≤ length (out.old.items ++ line_of top (step_of step.entry)))) }
{
    match put_ref(step, top, out) {
        Ok(()) => {}
        Err(_) => return Err(Stop::NoMemory),
    }
    if out.len() as u64 >= 1 << 32 {
        return Err(Stop::NoText);
    }
    Ok(())
}

/// Appends the line of a step under raised numbers. A deletion's line begins with the highest
/// number added so far, or with 1. `NoText` if a number reaches 2^48 (`CAP`), so that it is no
/// clause number, or if the text becomes too long.
fn put_raised(rewriter: &mut Rewriter, raise: Raise, step: StepRef<'_>) -> Result<(), Stop>
    requires { IsStep (step_of step) }
    ensures { (high : ℕ) → rewriter.old.top ≡ min (2 ^ 48) high → let line = renumbered (raised raise.above raise.by) (step_of step.entry) in
        MatchResult result
        (λ _. IsPut high line rewriter.old.out.items rewriter.new.out.items rewriter.new.top)
        (λ stop. Unless stop (LineFits high line → 2 ^ 32 ≤ length (rewriter.old.out.items ++ line_of (max 1 high) line))) }
{
    match step {
        StepRef::Add {
            id,
            lits,
            hints,
            groups,
        } => {
            let Some(id) = raise.number(id) else {
                return Err(Stop::NoText);
            };
            raise.numbers(hints, &mut rewriter.numbers)?;
            raise.groups(groups, &mut rewriter.hints, &mut rewriter.groups)?;
            let line = StepRef::Add {
                id,
                lits,
                hints: &rewriter.numbers,
                groups: &rewriter.groups,
            };
            put_short(&mut rewriter.out, id, line)?;
            rewriter.top = rewriter.top.max(id);
            Ok(())
        }
        StepRef::Delete { ids } => {
            if rewriter.top >= CAP {
                return Err(Stop::NoText);
            }
            raise.numbers(ids, &mut rewriter.numbers)?;
            let line = StepRef::Delete {
                ids: &rewriter.numbers,
            };
            put_short(&mut rewriter.out, rewriter.top.max(1), line)
        }
    }
}

/// Reads a line into the buffer; `NoText` if it spells no step, so that the proof cannot be
/// renumbered.
fn read(buffer: &mut StepBuffer, line: &[u8]) -> Result<(), Stop>
    ensures { MatchResult result
        (λ _. SpellsStep line.now buffer.new)
        (λ stop. Unless stop ((step : Step) → ¬ (SpellsStep line.now step))) }
{
    match read_line(buffer, line) {
        Ok(()) => Ok(()),
        Err(TextFault::NoMemory) => Err(Stop::NoMemory),
        Err(_) => Err(Stop::NoText),
    }
}

/// Writes the lines of a text under raised numbers, into an empty rewriter; `NoText` if there is no such text.
fn put_lines(
    rewriter: &mut Rewriter,
    buffer: &mut StepBuffer,
    raise: Raise,
    text: &[u8],
) -> Result<(), Stop>
    requires begun { rewriter.old.out.items ≡ [] }
    requires highest { rewriter.old.top ≡ min (2 ^ 48) (raise.above + raise.by) }
    ensures { MatchResult result
        (λ _. Renumbers raise.above raise.by text.now rewriter.new.out.items)
        (λ stop. Unless stop ((new : List ℕ) → ¬ (Renumbers raise.above raise.by text.now new))) }
{
    let mut rest = text;
    while let Some((line, later)) = cut_line(rest) {
        read(buffer, line)?;
        put_raised(rewriter, raise, buffer.as_ref())?;
        rest = later;
    }
    if rest.is_empty() {
        Ok(())
    } else {
        Err(Stop::NoText)
    }
}

/// Rewrites the proof of a formula of `m` clauses for the formula with `e` clauses more: each number k above `m` becomes k + e, wherever it
/// occurs. The line of a deletion begins with the highest number added so far, m + e at first, or with 1 if that is 0.
///
/// It answers `None` if a line spells no step, if a number would be above 2^48 - 1, or if the text would have 2^32 bytes or more. The text
/// is read once, and memory is taken for the new text and for one line.
pub fn renumber(alloc: Global, text: &[u8], m: u64, e: u64) -> Result<Option<Vec<u8>>, AllocError>
    ensures { IfOk result (λ found. MatchOption found
        ((new : List ℕ) → ¬ (Renumbers m e text.now new))
        (λ new. Renumbers m e text.now new.items)) }
{
    let mut rewriter = Rewriter {
        out: Vec::new(alloc),
        top: m.saturating_add(e).min(CAP),
        numbers: Vec::new(alloc),
        hints: Vec::new(alloc),
        groups: Groups::new(alloc),
    };
    let mut buffer = StepBuffer::new(alloc);
    let raise = Raise { above: m, by: e };
    match put_lines(&mut rewriter, &mut buffer, raise, text) {
        Ok(()) => {}
        Err(Stop::NoText) => return Ok(None),
        Err(Stop::NoMemory) => return Err(AllocError),
    }
    let Rewriter { out, .. } = rewriter;
    Ok(Some(out))
}
