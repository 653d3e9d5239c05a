//! References to clauses, updated after `Arena::compact` moved the clauses.

ghost use Rattle.std.specs.Prelude.{◌≡◌, IfSome, IfNone};
ghost use Rattle.watches.specs.inner.MovedRefs.{AreRising, IsUnmoved, IsMovedTo, Follows, AreFollowed};

use clause_arena::Ref;

/// The new reference to the clause of this number; None if no move is of it. The search is binary: the moves are in the order of clause
/// numbers. Most clauses have lower numbers than the first move, which is tested first.
fn find_move(moves: &[(Ref, Ref)], number: u64) -> Option<Ref>
    ensures moved { IfSome result (IsMovedTo moves.now number) }
    ensures unmoved { IfNone result (AreRising moves.now → IsUnmoved moves.now number) }
{
    if moves.is_empty() {
        return None;
    }
    let (first, _) = moves[0];
    if number < first.number() {
        return None;
    }
    let mut low = 0;
    let mut high = moves.len();
    while low < high {
        let middle = low + (high - low) / 2;
        let (from, to) = moves[middle];
        let here = from.number();
        if here == number {
            return Some(to);
        }
        if here < number {
            low = middle + 1;
        } else {
            high = middle;
        }
    }
    None
}

/// The reference to a clause after the moves; `at` itself if no move is of its number. A move that would change the number is ignored.
fn ref_after(moves: &[(Ref, Ref)], at: Ref) -> Ref
    ensures { Follows moves.now at result }
{
    match find_move(moves, at.number()) {
        Some(to) => { if to.number() == at.number() { to } else { at } }
        None => at,
    }
}

/// Updates each reference to a clause that moved.
pub fn update_refs(clauses: &mut [Ref], moves: &[(Ref, Ref)])
    ensures { AreFollowed moves.now clauses.old clauses.new }
{
    for i in 0..clauses.len() {
        clauses[i] = ref_after(moves, clauses[i]);
    }
}
