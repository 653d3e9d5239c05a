//! The row of an attached clause: its index among the clauses of the watch lists.

ghost use Rattle.std.specs.Prelude.{◌≡◌, ℕ, ◌+◌, ◌-◌, ◌<◌, ◌≤◌, true, false, Contains, length, slice_index_or, IfSome, IfNone};
ghost use Rattle.watches.specs.ClauseNumbers.{numbers};
ghost use Rattle.watches.specs.inner.WatchInvariants.{no_clause};
ghost use Rattle.watches.specs.Watches.{attached_of};

use clause_arena::Ref;

/// The first row whose clause has no lower number, by binary search; any row if the numbers are not
/// sorted, so the caller tests it.
fn place_of(clauses: &[Ref], number: u64) -> usize
    ensures { result ≤ length clauses.now }
{
    let mut low = 0;
    let mut high = clauses.len();
    while low < high {
        let middle = low + (high - low) / 2;
        if clauses[middle].number() < number {
            low = middle + 1;
        } else {
            high = middle;
        }
    }
    low
}

/// Finds the row of the clause of this number that is not marked as detached; None if there is none. Clauses are mostly attached in the
/// order of their numbers, so that binary search finds the row; if it does not, all rows are tried.
pub(crate) fn find_clause(clauses: &[Ref], live: &[bool], number: u64) -> Option<usize>
    requires { length live.now ≡ length clauses.now }
    ensures some { IfSome result (λ i. (i < length clauses.now) × ((slice_index_or clauses.now i no_clause).number ≡ number) × (slice_index_or live.now i false ≡ true)) }
    ensures none { IfNone result (Contains (numbers (attached_of clauses.now live.now)) number → ⊥) }
{
    let guess = place_of(clauses, number);
    if guess < clauses.len() && live[guess] && clauses[guess].number() == number {
        return Some(guess);
    }
    for i in 0..clauses.len() {
        if live[i] && clauses[i].number() == number {
            return Some(i);
        }
    }
    None
}
