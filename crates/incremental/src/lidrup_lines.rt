//! Writes lines of LIDRUP text. Those with clauses are cut out of lines of LRAT text, which `lrat_text` writes.

ghost use Rattle.std.specs.Prelude.{◌≡◌, ℕ, ◌+◌, ◌≤◌, ◌∷◌, ◌++◌, List, [], length, map, codes, Ok, OnOk};
ghost use Rattle.lrat_text.specs.Grammar.{IsStep, IsStepWithin};
ghost use Rattle.lrat_text.specs.Lines.{IsOpen};
ghost use Rattle.lrat_text.specs.Parser.{step_within};
ghost use Rattle.lrat_text.specs.Runs.{text_of};
ghost use Rattle.lrat_text.specs.declared.step.Step.{Step};
ghost use Rattle.lrat_text.specs.declared.step.Step.TheVariants.{Add, Delete};
ghost use Rattle.incremental.specs.inner.LidrupLines.{ArePlain, IsPlain, AppendsLine, AppendsLines, addition_text, core_text, deleted_text, given_text, line_said, listed_text};

use dimacs::Lit;
use lrat_text::{Groups, StepBuffer, StepRef, put_ref, put_ref_within, read_line_within};
use packed_text::{PackedLines, PackedText};
use std::alloc::{AllocError, Global};

/// Overwrites `line` with the line of LRAT text that adds a clause under the number `id`, by hints.
fn write_addition(
    line: &mut Vec<u8>,
    id: u64,
    lits: &[Lit],
    hints: &[u64],
) -> Result<(), AllocError>
    requires { IsStepWithin 199999999 (Add id lits.now hints.now []) }
    ensures bytes { OnOk result (line.new.items ≡ addition_text id lits.now hints.now) }
    ensures long { OnOk result (5 ≤ length line.new.items) }
{
    let groups = Groups::new(*line.allocator());
    line.clear();
    put_ref_within(
        StepRef::Add {
            id,
            lits,
            hints,
            groups: &groups,
        },
        id,
        line,
    )
}

/// Overwrites `line` with the line of LRAT text, under the number 1, that deletes the clauses of these numbers.
fn write_deletion(line: &mut Vec<u8>, ids: &[u64]) -> Result<(), AllocError>
    requires { IsStep (Delete ids.now) }
    ensures bytes { OnOk result (line.new.items ≡ codes "1 " ++ (deleted_text ids.now ++ codes "\n")) }
    ensures long { OnOk result (3 ≤ length line.new.items) }
{
    line.clear();
    put_ref(StepRef::Delete { ids }, 1, line)
}

/// Appends the bytes `front`, the bytes `rest`, and a newline.
pub(crate) fn put_line(out: &mut Vec<u8>, front: &[u8], rest: &[u8]) -> Result<(), AllocError>
    ensures { OnOk result (out.new.items ≡ out.old.items ++ ((front.now ++ rest.now) ++ 10 ∷ [])) }
{
    out.extend_from_slice(front)?;
    out.extend_from_slice(rest)?;
    out.push(b'\n')?;
    Ok(())
}

/// Appends `front`, then a part of the LRAT line `line`, without its first `first` and its last
/// `last` bytes, and a newline: so one writer makes the lines of both formats.
fn put_part(
    out: &mut Vec<u8>,
    front: &[u8],
    line: &[u8],
    first: usize,
    last: usize,
) -> Result<(), AllocError>
    requires { first + last ≤ length line.now }
    ensures { OnOk result ((ws ys zs : List ℕ) → line.now ≡ ws ++ (ys ++ zs) → first ≡ length ws → last ≡ length zs → out.new.items ≡ out.old.items ++ ((front.now ++ ys) ++ 10 ∷ [])) }
{
    let end = line.len() - last;
    put_line(out, front, &line[first..end])
}

/// Appends `i ID LITERALS 0`, the line of a given clause. `line` is a buffer that is reused.
pub(crate) fn put_given(
    out: &mut Vec<u8>,
    line: &mut Vec<u8>,
    id: u64,
    clause: &[Lit],
) -> Result<(), AllocError>
    requires { IsStepWithin 199999999 (Add id clause.now [] []) }
    ensures { OnOk result (out.new.items ≡ out.old.items ++ (given_text id clause.now ++ 10 ∷ [])) }
{
    write_addition(line, id, clause, &[])?;
    put_part(out, b"i ", line, 0, 3) // without the second 0
}

/// Appends `LETTER LITERALS 0`, the line of a query (`q`) or a model (`m`). `line` is a buffer that is reused.
pub(crate) fn put_listed(
    out: &mut Vec<u8>,
    line: &mut Vec<u8>,
    letter: u8,
    literals: &[Lit],
) -> Result<(), AllocError>
    requires { IsStepWithin 199999999 (Add 1 literals.now [] []) }
    ensures { OnOk result (out.new.items ≡ out.old.items ++ (listed_text letter literals.now ++ 10 ∷ [])) }
{
    write_addition(line, 1, literals, &[])?;
    put_part(out, &[letter], line, 1, 3) // without the second 0
}

/// Appends `u LITERALS 0 HINTS 0`, the line of a core. `line` is a buffer that is reused.
pub(crate) fn put_core(
    out: &mut Vec<u8>,
    line: &mut Vec<u8>,
    core: &[Lit],
    hints: &[u64],
) -> Result<(), AllocError>
    requires { IsStepWithin 199999999 (Add 1 core.now hints.now []) }
    ensures { OnOk result (out.new.items ≡ out.old.items ++ (core_text core.now hints.now ++ 10 ∷ [])) }
{
    write_addition(line, 1, core, hints)?;
    put_part(out, b"u", line, 1, 1)
}

/// Appends `d IDS 0`, the line of a deletion. `line` is a buffer that is reused.
fn put_deleted(out: &mut Vec<u8>, line: &mut Vec<u8>, ids: &[u64]) -> Result<(), AllocError>
    requires { IsStep (Delete ids.now) }
    ensures { OnOk result (out.new.items ≡ out.old.items ++ (deleted_text ids.now ++ 10 ∷ [])) }
{
    write_deletion(line, ids)?;
    put_part(out, b"", line, 2, 1)
}

/// The greatest variable of a session.
const MOST: u32 = 199_999_999;

/// Reads a line of the search's log into `step`. The log was written by this program, so an Err is
/// a refusal of memory.
fn read_step(step: &mut StepBuffer, line: &[u8]) -> Result<(), AllocError>
    ensures { OnOk result (step_within 199999999 line.now ≡ Ok step.new) }
{
    match read_line_within(step, MOST, line) {
        Ok(()) => Ok(()),
        Err(_) => Err(AllocError),
    }
}

/// Buffers for lines that are read and written, reused from line to line.
pub(crate) struct Scratch {
    /// The line of LRAT text of which a line is cut.
    pub(crate) line: Vec<u8>,
    /// The step that was read of a line of the log.
    step: StepBuffer,
}

impl Drop for Scratch {
    fn drop(self) {
        let Scratch { line: _, step: _ } = self;
    }
}

impl Scratch {
    /// Empty buffers.
    pub(crate) fn new(alloc: Global) -> Scratch {
        Scratch {
            line: Vec::new(alloc),
            step: StepBuffer::new(alloc),
        }
    }

    /// Appends the line of LIDRUP text for a line of the log, without its LF: a lemma (`l`) or a deletion (`d`).
    fn put_step(&mut self, out: &mut Vec<u8>, line: &[u8]) -> Result<(), AllocError>
        requires open { IsOpen line.now }
        ensures { OnOk result ((most : ℕ) (step : Step) → most ≤ 199999999 → step_within most line.now ≡ Ok step → IsPlain step → AppendsLine most (Ok (line_said step)) out.old.items out.new.items) }
    {
        read_step(&mut self.step, line)?;
        match self.step.as_ref() {
            StepRef::Add { .. } => put_line(out, b"l ", line),
            StepRef::Delete { ids } => put_deleted(out, &mut self.line, ids),
        }
    }

    /// Appends the lines of LIDRUP text for all lines of a log.
    pub(crate) fn put_log(
        &mut self,
        alloc: Global,
        out: &mut Vec<u8>,
        log: &PackedText,
    ) -> Result<(), AllocError>
        ensures { OnOk result ((most top : ℕ) (steps : List Step) → most ≤ 199999999 → log.now ≡ text_of top steps → ArePlain most top steps → AppendsLines most (map line_said steps) out.old.items out.new.items) }
    {
        let mut lines = PackedLines::of(alloc, log);
        let mut line = Vec::new(alloc);
        'lines: while lines.next(&mut line)? {
            self.put_step(out, &line)?;
        }
        Ok(())
    }
}
