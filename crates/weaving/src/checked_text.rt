//! The text of the woven log: a line is appended only if the checker of logs takes it.

ghost use Rattle.std.specs.Prelude.{◌≡◌, true, [], ◌∷◌, ◌++◌, IfOk, OnOk};
ghost use Rattle.std.specs.Bool.{OnTrue};
ghost use Rattle.lrat_text.specs.Lines.{IsOpen};
ghost use Rattle.lrat_text.specs.Log.{Negates};
ghost use Rattle.lrat_text.specs.Steps.{step_of};
ghost use Rattle.lidrup.specs.Lidrup.{IsClosing, Negates as IsNegated};
ghost use Rattle.weaving.specs.Woven.{ClosesAs, HasWoven, KeepsWoven};
ghost use Rattle.weaving.specs.inner.Lines.{AppendsLine};

use dimacs::{Formula, Lit, has_literal};
use itoa::Buffer;
use lrat_check::{CheckFault, LogChecker};
use lrat_text::{Groups, StepRef, cut_line, put_with_literal_text};
use std::alloc::{AllocError, Global};

/// The text, its checker, and the line that is made.
pub(crate) struct CheckedText {
    pub(crate) checker: LogChecker,
    /// The lines that are not handed out yet.
    pub(crate) out: Vec<u8>,
    /// The line that was made last, with its LF.
    made: Vec<u8>,
}

impl Drop for CheckedText {
    fn drop(self) {
        let CheckedText {
            checker: _,
            out: _,
            made: _,
        } = self;
    }
}

/// Appends a number, in decimal, and a space.
fn put_number(line: &mut Vec<u8>, number: u64) -> Result<(), AllocError> {
    let mut buffer = Buffer::new();
    line.extend_from_slice(buffer.format(number).as_bytes())?;
    line.push(b' ')?;
    Ok(())
}

/// Overwrites `line` with a lemma's line; `literals` is the text of its literals, with a space before it and ` 0` behind it.
fn make_lemma(
    line: &mut Vec<u8>,
    number: u64,
    literals: &[u8],
    hints: &[u64],
) -> Result<(), AllocError> {
    line.clear();
    let no_group = Groups::new(*line.allocator());
    put_with_literal_text(number, literals, hints, &no_group, line)
}

/// Overwrites `line` with the line that deletes the lemmas of these numbers, behind the lemma of the number `top`.
fn make_deletion(line: &mut Vec<u8>, top: u64, numbers: &[u64]) -> Result<(), AllocError> {
    line.clear();
    put_number(line, top)?;
    line.extend_from_slice(b"d ")?;
    for &number in numbers {
        put_number(line, number)?;
    }
    line.extend_from_slice(b"0\n")?;
    Ok(())
}

/// Appends a line and its LF.
fn put_line(out: &mut Vec<u8>, line: &[u8]) -> Result<(), AllocError>
    ensures { OnOk result (out.new.items ≡ out.old.items ++ line.now ++ 10 ∷ []) }
{
    out.extend_from_slice(line)?;
    out.push(b'\n')?;
    Ok(())
}

/// Appends a line and its LF to the text, if the checker takes it.
fn append(checker: &mut LogChecker, line: &[u8], out: &mut Vec<u8>) -> Result<(), CheckFault>
    requires { IsOpen line.now }
    ensures { OnOk result (AppendsLine checker.old checker.new out.old.items out.new.items) }
{
    checker.take(line)?;
    put_line(out, line)?;
    Ok(())
}

/// Appends the line in `made` to the text, if the checker takes it.
fn append_made(checker: &mut LogChecker, made: &[u8], out: &mut Vec<u8>) -> Result<(), CheckFault>
    ensures { OnOk result (AppendsLine checker.old checker.new out.old.items out.new.items) }
{
    match cut_line(made) {
        Some((line, _)) => append(checker, line, out),
        None => Err(CheckFault::no_memory()), // each line is made with its LF
    }
}

/// Tells whether each literal of a clause is the negation of one of the cube's.
fn is_negated(cube: &[Lit], clause: &[Lit]) -> bool
    ensures { OnTrue result (IsNegated cube.now clause.now) }
{
    for l in clause {
        if !has_literal(cube, l.negate()) {
            return false;
        }
    }
    true
}

/// Tells whether a step adds a clause each of whose literals is the negation of one of the cube's.
fn negates(cube: &[Lit], step: StepRef<'_>) -> bool
    ensures { OnTrue result (Negates cube.now (step_of step.entry)) }
{
    match step {
        StepRef::Add { lits, .. } => is_negated(cube, lits),
        StepRef::Delete { .. } => false,
    }
}

impl CheckedText {
    /// The empty text of a log over the formula.
    pub(crate) fn of(alloc: Global, formula: Formula) -> Result<CheckedText, AllocError>
        ensures { IfOk result (HasWoven formula []) }
    {
        Ok(CheckedText {
            checker: LogChecker::of(alloc, formula)?,
            out: Vec::new(alloc),
            made: Vec::new(alloc),
        })
    }

    /// The number that the next lemma has to have.
    pub(crate) fn next(&self) -> u64 {
        self.checker.top() + 1
    }

    /// Appends the next lemma; `literals` is the text of its literals, with a space before it and ` 0` behind it. It errs if the checker
    /// refuses the lemma.
    pub(crate) fn add(&mut self, literals: &[u8], hints: &[u64]) -> Result<(), CheckFault>
        ensures { OnOk result (KeepsWoven self.old self.new) }
    {
        let number = self.next();
        make_lemma(&mut self.made, number, literals, hints)?;
        append_made(&mut self.checker, &self.made, &mut self.out)
    }

    /// Appends the last lemma, and tells whether it closes the cube.
    pub(crate) fn add_last(
        &mut self,
        cube: &[Lit],
        literals: &[u8],
        hints: &[u64],
    ) -> Result<bool, CheckFault>
        ensures woven { OnOk result (KeepsWoven self.old self.new) }
        ensures closes { IfOk result (λ closes. closes ≡ true → ClosesAs cube.now self.old self.new) }
    {
        let number = self.next();
        make_lemma(&mut self.made, number, literals, hints)?;
        append_made(&mut self.checker, &self.made, &mut self.out)?;
        Ok(negates(cube, self.checker.step()))
    }

    /// Appends the deletion of the lemmas of these numbers, if there are any.
    pub(crate) fn delete(&mut self, numbers: &[u64]) -> Result<(), CheckFault>
        ensures { OnOk result (KeepsWoven self.old self.new) }
    {
        if numbers.is_empty() {
            return Ok(());
        }
        make_deletion(&mut self.made, self.checker.top(), numbers)?;
        append_made(&mut self.checker, &self.made, &mut self.out)
    }

    /// Tells whether a lemma of the text is live under this number, and closes the cube.
    pub(crate) fn has_closing(&self, number: u64, cube: &[Lit]) -> bool
        ensures { OnTrue result (IsClosing self.now.checker.base self.now.checker.live number cube.now) }
    {
        if number <= self.checker.base() {
            return false;
        }
        match self.checker.clause(number) {
            Some(clause) => is_negated(cube, clause),
            None => false,
        }
    }
}
