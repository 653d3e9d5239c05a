//! Writes the lemmas of a trace as an LRAT proof.

use crate::arena::NEEDED;
use crate::backward::Made;
use crate::trace::{CANDIDATE, LAST, Lemma, NO_HINT, UNIT};
use packed_text::PackedText;
use std::alloc::{AllocError, Global};

/// The number of bytes that are packed at once.
const BLOCK: usize = 65_536;

/// A text in the making, and the numbers of its clauses.
struct LratWriter {
    text: PackedText,
    /// Bytes that are not packed yet.
    line: Vec<u8>,
    /// The number that was given last.
    last: u32,
    /// By clause number, from 0, its number in the text.
    clauses: Vec<u32>,
    /// By variable, the number of the unit lemma of its root literal.
    units: Vec<u32>,
    /// The numbers that the next deletion names.
    deleted: Vec<u32>,
}

impl Drop for LratWriter {
    fn drop(self) {
        let LratWriter {
            text: _,
            line: _,
            last: _,
            clauses: _,
            units: _,
            deleted: _,
        } = self;
    }
}

/// The number at an index; 0 if there is none.
fn number_at(numbers: &[u32], i: u32) -> u32 {
    match numbers.get(i as usize) {
        Some(&number) => number,
        None => 0,
    }
}

/// Writes a number at an index.
fn set_number(numbers: &mut [u32], i: u32, number: u32) {
    if let Some(place) = numbers.get_mut(i as usize) {
        *place = number;
    }
}

/// Appends a number and a space.
fn put_number(line: &mut Vec<u8>, number: u32) -> Result<(), AllocError> {
    let mut digits = [b'0'; 10];
    let mut rest = number;
    let mut from = 10;
    for i in (0..10).rev() {
        if rest > 0 || i == 9 {
            digits[i] = b'0' + (rest % 10) as u8;
            rest /= 10;
            from = i;
        }
    }
    line.extend_from_slice(digits.get(from..).unwrap_or(b"0"))?;
    line.push(b' ')?;
    Ok(())
}

/// Appends a literal and a space.
fn put_literal(line: &mut Vec<u8>, literal: u32) -> Result<(), AllocError> {
    if literal % 2 == 1 {
        line.push(b'-')?;
    }
    put_number(line, literal / 2)
}

impl LratWriter {
    /// An empty text behind the `formula` first of the clauses.
    fn new(alloc: Global, made: &Made, rows: u32) -> Result<LratWriter, AllocError> {
        let mut clauses = vec![in alloc; 0; made.arena.clauses()]?;
        for i in 0..made.formula {
            if i < u32::MAX as usize {
                set_number(&mut clauses, i as u32, i as u32 + 1);
            }
        }
        Ok(LratWriter {
            text: PackedText::new(alloc),
            line: Vec::new(alloc),
            last: if made.formula < u32::MAX as usize {
                made.formula as u32
            } else {
                0
            },
            clauses,
            units: vec![in alloc; 0; rows as usize]?,
            deleted: Vec::new(alloc),
        })
    }

    /// Packs the bytes that were written.
    fn pack(&mut self) -> Result<(), AllocError> {
        self.text.extend(&self.line)?;
        self.line.clear();
        Ok(())
    }

    /// The number in the text that a hint means.
    fn number_of(&self, hint: u32) -> u32 {
        if hint & UNIT != 0 {
            number_at(&self.units, hint / 16)
        } else {
            number_at(&self.clauses, hint / 8)
        }
    }

    /// Appends a deletion of the clauses that are used no more, if there are any.
    fn put_deletion(&mut self) -> Result<(), AllocError> {
        if self.deleted.is_empty() {
            return Ok(());
        }
        put_number(&mut self.line, self.last)?;
        self.line.extend_from_slice(b"d ")?;
        for &number in &self.deleted {
            put_number(&mut self.line, number)?;
        }
        self.line.extend_from_slice(b"0\n")?;
        self.deleted.clear();
        Ok(())
    }

    /// Appends the hints of a lemma.
    fn put_hints(&mut self, hints: &[u32]) -> Result<(), AllocError> {
        let mut is_candidate = false;
        for &hint in hints {
            if hint == CANDIDATE {
                is_candidate = true;
                continue;
            }
            let number = self.number_of(hint);
            if is_candidate {
                self.line.push(b'-')?;
                is_candidate = false;
            }
            if hint & NO_HINT == 0 {
                put_number(&mut self.line, number)?;
            }
            if hint & LAST != 0 {
                self.deleted.push(number)?;
            }
        }
        Ok(())
    }

    /// Appends a literal of a lemma, unless it is the pivot, which stands first.
    fn put_others(&mut self, literals: &[u32], pivot: u32) -> Result<(), AllocError> {
        for &literal in literals {
            if literal != pivot {
                put_literal(&mut self.line, literal)?;
            }
        }
        Ok(())
    }

    /// Appends the literals of the clause at a place, its pivot first, and gives it its number.
    fn put_clause(&mut self, made: &Made, clause: u32) -> Result<(), AllocError> {
        let number = made.arena.number(clause);
        let addition = (number as usize).wrapping_sub(made.formula);
        let pivot = match made.pivots.get(addition) {
            Some(&pivot) => pivot,
            None => 0,
        };
        if pivot != 0 {
            put_literal(&mut self.line, pivot)?;
        }
        self.put_others(made.arena.literals(clause), pivot)?;
        set_number(&mut self.clauses, number, self.last);
        Ok(())
    }

    /// Appends the record of index i, and a deletion of what is used no more.
    fn put_record(&mut self, made: &Made, i: usize, lemma: Lemma) -> Result<(), AllocError> {
        self.last = self.last.wrapping_add(1);
        put_number(&mut self.line, self.last)?;
        match lemma {
            Lemma::Empty => {}
            Lemma::Unit(literal) => {
                put_literal(&mut self.line, literal)?;
                set_number(&mut self.units, literal / 2, self.last);
            }
            Lemma::Clause(clause) => self.put_clause(made, clause)?,
        }
        self.line.extend_from_slice(b"0 ")?;
        self.put_hints(made.trace.hints_of(i))?;
        self.line.extend_from_slice(b"0\n")?;
        match lemma {
            Lemma::Empty => {}
            _ => self.put_deletion()?,
        }
        if self.line.len() >= BLOCK {
            self.pack()?;
        }
        Ok(())
    }

    /// Deletes the clauses of the formula that nothing needs, so that no one of them is a candidate.
    fn delete_unused(&mut self, made: &Made) -> Result<(), AllocError> {
        for i in 0..made.formula {
            if !made.arena.has(made.arena.place(i), NEEDED) && i < u32::MAX as usize {
                self.deleted.push(i as u32 + 1)?;
            }
        }
        self.put_deletion()
    }
}

/// Writes what the pass backwards made as the text of an LRAT proof; all variables are below `rows`.
pub(crate) fn write(alloc: Global, made: &Made, rows: u32) -> Result<PackedText, AllocError> {
    let mut writer = LratWriter::new(alloc, made, rows)?;
    if made.rats > 0 {
        writer.delete_unused(made)?;
    }
    for i in (0..made.trace.records.len()).rev() {
        if let Some(record) = made.trace.records.get(i) {
            writer.put_record(made, i, record.lemma)?;
        }
    }
    writer.pack()?;
    Ok(writer.into_text())
}

impl LratWriter {
    /// The text that was written.
    fn into_text(self) -> PackedText {
        let LratWriter {
            text,
            line: _,
            last: _,
            clauses: _,
            units: _,
            deleted: _,
        } = self;
        text
    }
}
