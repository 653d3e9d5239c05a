//! Removal of clauses that were detached.

ghost use Rattle.std.specs.Prelude.{◌≡◌, true, All, length};
ghost use Rattle.watches.specs.Watches.{attached_of};

use clause_arena::Ref;

/// Removes each clause whose entry of `live` is false, and that entry, in one pass. The others keep their order.
pub(crate) fn remove_detached(clauses: &mut Vec<Ref>, live: &mut Vec<bool>)
    requires { length live.old.items ≡ length clauses.old.items }
    ensures clauses { clauses.new.items ≡ attached_of clauses.old.items live.old.items }
    ensures live { All (λ b. b ≡ true) live.new.items }
    ensures marked { length live.new.items ≡ length clauses.new.items }
{
    let mut count = 0;
    for i in 0..clauses.len() {
        if live[i] {
            clauses[count] = clauses[i];
            live[count] = true;
            count += 1;
        }
    }
    clauses.truncate(count);
    live.truncate(count);
}
