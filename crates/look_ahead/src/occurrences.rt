//! The occurrence lists: for each literal the clauses in which it occurs.

ghost use Rattle.std.specs.Prelude.{ℕ, ◌+◌, ◌<◌, ◌≤◌, length, All, IfOk};

use crate::clauses::Clauses;
use std::alloc::{AllocError, Global};

/// For each literal the numbers of the clauses in which it occurs, in one vector (made by a counting sort).
pub(crate) struct Occurrences {
    /// The lists, one after the other, in the order of codes.
    clauses: Vec<u32>,
    /// By code, the index where the literal's list begins; and after the last literal the length of the vector.
    starts: Vec<usize>,
    /// A bound above the number of each clause.
    pub bound: usize,
    ghost below: { All (λ c. c < bound) clauses.items },
}

impl Drop for Occurrences {
    fn drop(self) {
        let Occurrences {
            clauses: _,
            starts: _,
            bound: _,
        } = self;
    }
}

/// The first pass of a counting sort by code: `starts`, all 0 before, gets the index where the list
/// of each code ends.
fn ends(starts: &mut [usize], codes: &[u32]) {
    for &code in codes {
        if let Some(place) = starts.get_mut(code as usize) {
            *place = place.wrapping_add(1);
        }
    }
    let mut total: usize = 0;
    for place in starts.iter_mut() {
        total = total.wrapping_add(*place);
        *place = total;
    }
}

/// Writes the number of a clause at an index; nothing changes if the index is past the end, which
/// no call needs but no proof excludes.
fn put(clauses: &mut [u32], at: usize, number: u32)
    requires { All (λ c. c ≤ number) clauses.old }
    ensures { All (λ c. c ≤ number) clauses.new }
{
    if at < clauses.len() {
        clauses[at] = number;
    }
}

/// The second pass of the counting sort: writes the number of a clause with these codes into the
/// list of each, before what the list has so far.
fn put_clause(clauses: &mut [u32], starts: &mut [usize], codes: &[u32], number: u32)
    requires { All (λ c. c ≤ number) clauses.old }
    ensures { All (λ c. c ≤ number) clauses.new }
{
    for &code in codes {
        if let Some(start) = starts.get_mut(code as usize) {
            *start = start.wrapping_sub(1);
            put(clauses, *start, number);
        }
    }
}

impl Occurrences {
    /// The occurrence lists of these clauses, whose codes are below `codes`.
    pub(crate) fn of(
        alloc: Global,
        clauses: &Clauses,
        codes: usize,
    ) -> Result<Occurrences, AllocError>
        requires { codes ≤ 200000000 }
        ensures { IfOk result (λ p. p.bound ≤ 100000000) }
    {
        let mut starts = vec![in alloc; 0; codes + 1]?;
        ends(&mut starts, clauses.codes());
        let mut occurrences = vec![in alloc; 0; clauses.codes().len()]?;
        let count = clauses.len();
        for i in 0..count {
            put_clause(&mut occurrences, &mut starts, clauses.clause(i), i as u32);
        }
        Ok(Occurrences {
            clauses: occurrences,
            starts,
            bound: count + 1,
        })
    }

    /// The numbers of the clauses that have the literal of this code; none if the code is unknown.
    pub(crate) fn of_code(&self, code: u32) -> &[u32]
        ensures { All (λ c. c < self.now.bound) result.now }
    {
        let at = code as usize;
        let (Some(&from), Some(&to)) = (self.starts.get(at), self.starts.get(at + 1)) else {
            return &[];
        };
        self.clauses.get(from..to).unwrap_or(&[])
    }
}
