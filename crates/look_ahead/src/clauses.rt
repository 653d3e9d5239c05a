//! A formula's clauses as the lookahead reads them: literals as codes, no repeated literal, no tautology.

ghost use Rattle.std.specs.Prelude.{◌≤◌, vec_len};

use dimacs::{Formula, Lit};
use std::alloc::{AllocError, Global};

/// A formula's clauses, each literal once, without tautologies (clauses with a literal and its negation). A literal is named by its code,
/// its index in a table of all literals (`Lit::index`): code ^ 1 is its negation.
pub(crate) struct Clauses {
    /// The codes of all clauses, one clause after the other.
    codes: Vec<u32>,
    /// By clause, the index of its first code; and after the last clause the number of codes.
    starts: Vec<usize>,
    ghost few: { vec_len starts ≤ 100000000 },
}

impl Drop for Clauses {
    fn drop(self) {
        let Clauses {
            codes: _,
            starts: _,
        } = self;
    }
}

/// Appends the codes of a clause, each once. Returns false if the clause is a tautology, of which
/// some codes may be appended. `last` has by code the number of the last clause that had it.
fn append(
    codes: &mut Vec<u32>,
    last: &mut [u32],
    clause: &[Lit],
    number: u32,
) -> Result<bool, AllocError> {
    for literal in clause {
        let code = literal.index() as u32;
        if last.get(code as usize ^ 1) == Some(&number) {
            return Ok(false);
        }
        if let Some(place) = last.get_mut(code as usize)
            && *place != number
        {
            *place = number;
            codes.push(code)?;
        }
    }
    Ok(true)
}

impl Clauses {
    /// The clauses of a formula, without repeated literals and tautologies, in their order.
    pub(crate) fn of(alloc: Global, formula: &Formula) -> Result<Clauses, AllocError> {
        let rows = formula.vars() as usize + 1;
        let mut last = vec![in alloc; 0; 2 * rows]?;
        let mut codes = Vec::new(alloc);
        let mut starts = vec![in alloc; 0]?;
        for i in 0..formula.len() {
            let begin = codes.len();
            if append(&mut codes, &mut last, formula.clause(i), i as u32 + 1)? {
                starts.push(codes.len())?;
            } else {
                codes.truncate(begin);
            }
        }
        Ok(Clauses { codes, starts })
    }

    /// The number of clauses.
    pub(crate) fn len(&self) -> usize
        ensures { result ≤ 99999999 }
    {
        self.starts.len().saturating_sub(1)
    }

    /// The codes of all clauses, one clause after the other.
    pub(crate) fn codes(&self) -> &[u32] {
        &self.codes
    }

    /// The codes of the clause of this number, from 0; none if there is no such clause.
    pub(crate) fn clause(&self, i: usize) -> &[u32] {
        let (Some(&from), Some(&to)) = (self.starts.get(i), self.starts.get(i.wrapping_add(1)))
        else {
            return &[];
        };
        self.codes.get(from..to).unwrap_or(&[])
    }
}
