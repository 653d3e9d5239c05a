//! The second reading of the logs: the needed lemmas are written in the same order, and checked.

ghost use Rattle.std.specs.Prelude.{◌≡◌, ◌++◌, ℕ, List, [], true, false, IfOk, OnOk};
ghost use Rattle.std.specs.Bool.{OnTrue};
ghost use Rattle.dimacs.specs.logic.Cnf.{Cnf};
ghost use Rattle.lidrup.specs.CubeLog.{ClosesCube};
ghost use Rattle.weaving.specs.Woven.{ClosesAs, HasWoven, KeepsWoven};

use crate::cell::{CellLogs, LogSource};
use crate::checked_text::CheckedText;
use crate::fault::{WeaveFault, refused_line};
use crate::numbering::Numbering;
use crate::second_reading::{Reread, SecondReading};
use crate::survey::Plan;
use dimacs::{Formula, Lit};
use lrat_check::CheckFault;
use shared_lines::SharedLine;
use std::alloc::Global;

/// How many bytes of the text are handed out at a time, at least.
const BLOCK: usize = 65_536;

/// Weaves the log that a plan describes. The text comes in blocks, each of which is checked before it is handed out.
pub struct Weaver<S> {
    cube: Vec<Lit>,
    pub(crate) text: CheckedText,
    reading: SecondReading<S>,
    numbering: Numbering,
    /// The hints of the lemma that is written, by their numbers in the text.
    hints: Vec<u64>,
    /// Those of them that no later lemma needs.
    dead: Vec<u64>,
}

impl<S: Drop> Drop for Weaver<S> {
    fn drop(self) {
        let Weaver {
            cube: _,
            text: _,
            reading: _,
            numbering: _,
            hints: _,
            dead: _,
        } = self;
    }
}

/// Lends the text of the literals of a lemma's line, from the space before them to the first ` 0`.
fn literals_in(line: &[u8]) -> &[u8] {
    let mut start = line.len();
    for (i, &byte) in line.iter().enumerate() {
        if byte != b' ' {
            continue;
        }
        start = start.min(i);
        if line.get(i + 1) == Some(&b'0') {
            return line.get(start..i + 2).unwrap_or(&[]);
        }
    }
    &[]
}

/// Appends a lemma, and a deletion of those of its hints that no later lemma needs. Tells whether it is the last lemma, and closes the cube.
fn put_lemma(
    text: &mut CheckedText,
    cube: &[Lit],
    literals: &[u8],
    hints: &[u64],
    dead: &[u64],
    is_last: bool,
) -> Result<bool, CheckFault>
    ensures woven { OnOk result (KeepsWoven text.old text.new) }
    ensures closes { IfOk result (λ closes. closes ≡ true → ClosesAs cube.now text.old text.new) }
{
    if is_last {
        return text.add_last(cube, literals, hints);
    }
    text.add(literals, hints)?;
    text.delete(dead)?;
    Ok(false)
}

/// Appends the lemma of a line that was read again, if it is needed. Tells whether that closes the cube.
fn weave_lemma(
    read: Reread<'_>,
    cube: &[Lit],
    text: &mut CheckedText,
    numbering: &mut Numbering,
    hints: &mut Vec<u64>,
    dead: &mut Vec<u64>,
) -> Result<bool, WeaveFault>
    ensures woven { OnOk result (KeepsWoven text.old text.new) }
    ensures closes { IfOk result (λ closes. closes ≡ true → ClosesAs cube.now text.old text.new) }
{
    let SharedLine::Lemma {
        number,
        hints: foreign,
        ..
    } = read.line
    else {
        return Ok(false);
    };
    let Some(lemma) = numbering.needed(read.log, number) else {
        return Ok(false);
    };
    numbering.translate(read.log, lemma, foreign, hints, dead)?;
    numbering.give(lemma, text.next());
    let literals = literals_in(read.text);
    match put_lemma(text, cube, literals, hints, dead, numbering.is_last(lemma)) {
        Ok(closes) => Ok(closes),
        Err(fault) => Err(refused_line(fault, read.log, read.place)),
    }
}

impl<S: LogSource + Drop> Weaver<S> {
    /// A weaver of the logs of a cell over the formula that has read no line of them again. `cube` is the one that the plan's last lemma
    /// closes (`Plan::last`).
    pub fn of<L: CellLogs<Source = S>>(
        alloc: Global,
        formula: Formula,
        cube: Vec<Lit>,
        plan: Plan,
        logs: &L,
    ) -> Result<Weaver<S>, WeaveFault>
        ensures woven { IfOk result (λ w. HasWoven formula [] w.text) }
        ensures cube { IfOk result (λ w. w.cube ≡ cube) }
    {
        let text = CheckedText::of(alloc, formula)?;
        let most = plan.most();
        let (runs, numbering) = plan.into_parts(alloc)?;
        let reading = SecondReading::of(alloc, most, runs, logs)?;
        Ok(Weaver {
            cube,
            text,
            reading,
            numbering,
            hints: Vec::new(alloc),
            dead: Vec::new(alloc),
        })
    }

    /// Reads the next line again, and appends its lemma if it is needed. Tells whether that closes the cube.
    fn weave_line(&mut self) -> Result<bool, WeaveFault>
        ensures woven { OnOk result (KeepsWoven self.old.text self.new.text) }
        ensures closes { IfOk result (λ closes. closes ≡ true → ClosesAs self.old.cube.items self.old.text self.new.text) }
        ensures cube { self.new.cube ≡ self.old.cube }
    {
        self.reading.next()?;
        weave_lemma(
            self.reading.line(),
            &self.cube,
            &mut self.text,
            &mut self.numbering,
            &mut self.hints,
            &mut self.dead,
        )
    }

    /// Weaves on until some 64 KiB of the text wait, or until the text closes the cube: then the answer is false. After an Err, or after
    /// that, the weaver is of no use.
    pub fn weave(&mut self) -> Result<bool, WeaveFault>
        ensures woven { OnOk result (KeepsWoven self.old.text self.new.text) }
        ensures closes { IfOk result (λ more. more ≡ false → ClosesAs self.old.cube.items self.old.text self.new.text) }
        ensures cube { self.new.cube ≡ self.old.cube }
    {
        'lines: for _ in 0..u64::MAX {
            if self.weave_line()? {
                return Ok(false);
            }
            if self.text.out.len() >= BLOCK {
                break;
            }
        }
        Ok(true)
    }

    /// Tells whether the lemma that the plan has for the cube at a place closes this cube, and is live at the end of the text so far.
    pub fn closes(&self, place: usize, cube: &[Lit]) -> bool
        ensures { OnTrue result ((F : Cnf) (handed : List ℕ) → HasWoven F handed self.now.text → ClosesCube F cube.now (handed ++ self.now.text.out.items)) }
    {
        self.text
            .has_closing(self.numbering.closing_number(place), cube)
    }

    /// Lends the bytes of the text that were written since the last call of `forget`.
    pub fn written(&self) -> &[u8]
        ensures { result.now ≡ self.now.text.out.items }
    {
        &self.text.out
    }

    /// Drops the bytes that `written` lends, after the caller has stored them.
    pub fn forget(&mut self)
        ensures woven { (F : Cnf) (handed : List ℕ) → HasWoven F handed self.old.text → HasWoven F (handed ++ self.old.text.out.items) self.new.text }
        ensures out { self.new.text.out.items ≡ [] }
        ensures cube { self.new.cube ≡ self.old.cube }
    {
        self.text.out.clear();
    }
}
