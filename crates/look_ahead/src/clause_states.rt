//! The state of each clause under the literals that are true: its counters.

ghost use Rattle.std.specs.Prelude.{◌<◌, length, All};

use crate::trail::Trail;

/// The state of a clause. A clause is open if none of its literals is true.
#[derive(Clone, Copy)]
pub(crate) struct ClauseState {
    /// The number of its literals that are true.
    pub satisfied: u32,
    /// The number of its literals that are not false.
    pub open: u32,
    /// The exclusive or of the codes of the literals that are not false: if there is only one, its code.
    pub rest: u32,
    /// The number of the last lookahead that counted the clause.
    pub stamp: u32,
}

/// The weight of an open clause of which this many literals are not false: a quarter for each literal more.
fn weight(open: u32) -> u64 {
    match open {
        0 | 1 => 0,
        2 => 1024,
        3 => 256,
        4 => 64,
        5 => 16,
        6 => 4,
        _ => 1,
    }
}

impl ClauseState {
    /// The weight of the clause; 0 if it has a true literal.
    pub(crate) fn weight(self) -> u64 {
        if self.satisfied > 0 {
            return 0;
        }
        weight(self.open)
    }
}

/// Counts one more true literal in these clauses, which have the literal that became true.
pub(crate) fn satisfy(states: &mut [ClauseState], clauses: &[u32])
    requires { All (λ c. c < length states.old) clauses.now }
{
    for &clause in clauses {
        let state = &mut states[clause as usize];
        state.satisfied = state.satisfied.wrapping_add(1);
    }
}

/// Undoes `satisfy` for these clauses at a backtrack: one true literal less.
pub(crate) fn release(states: &mut [ClauseState], clauses: &[u32])
    requires { All (λ c. c < length states.old) clauses.now }
{
    for &clause in clauses {
        let state = &mut states[clause as usize];
        state.satisfied = state.satisfied.wrapping_sub(1);
    }
}

/// Counts one literal less that is not false in these clauses, which have the literal of this code
/// that became false. `rest` is the XOR of the codes that are left, so the last one is read off
/// without a search: a unit clause's literal goes on the trail. Returns true if a clause became
/// false.
pub(crate) fn shorten(
    states: &mut [ClauseState],
    clauses: &[u32],
    code: u32,
    trail: &mut Trail,
) -> bool
    requires { All (λ c. c < length states.old) clauses.now }
{
    let mut conflict = false;
    for &clause in clauses {
        let state = &mut states[clause as usize];
        state.open = state.open.wrapping_sub(1);
        state.rest ^= code;
        if state.satisfied == 0 {
            match state.open {
                0 => conflict = true,
                1 => trail.push(state.rest),
                _ => {}
            }
        }
    }
    conflict
}

/// Undoes `shorten` for these clauses at a backtrack; what it pushed on the trail stays there.
pub(crate) fn lengthen(states: &mut [ClauseState], clauses: &[u32], code: u32)
    requires { All (λ c. c < length states.old) clauses.now }
{
    for &clause in clauses {
        let state = &mut states[clause as usize];
        state.open = state.open.wrapping_add(1);
        state.rest ^= code;
    }
}

/// Returns the sum of the weights of these clauses, except those that this lookahead has weighed
/// already; they have its number as their stamp.
pub(crate) fn weigh_once(states: &mut [ClauseState], clauses: &[u32], lookahead: u32) -> u64
    requires { All (λ c. c < length states.old) clauses.now }
{
    let mut sum: u64 = 0;
    for &clause in clauses {
        let state = &mut states[clause as usize];
        if state.stamp != lookahead {
            state.stamp = lookahead;
            sum = sum.saturating_add(state.weight());
        }
    }
    sum
}
