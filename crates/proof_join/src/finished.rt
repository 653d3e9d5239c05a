//! The stack of finished subtrees, each of which waits for its right sibling.

ghost use Rattle.std.specs.Prelude.{◌≡◌, ◌<◌, ◌∷◌, MatchBool, MatchOption, OnOk, IfErr};
ghost use Rattle.proof_join.specs.Fronts.{branch_of, branches};
ghost use Rattle.proof_join.specs.inner.Fronts.{HasLeft};

use crate::fault::JoinFault;
use crate::subtree::Subtree;

/// A finished subtree, and its depth: the length of the path to it.
#[derive(Drop)]
pub(crate) struct Finished {
    pub(crate) depth: usize,
    pub(crate) subtree: Subtree,
}

/// Whether the top of the stack is the left sibling of a subtree at this depth: it has the same
/// depth, and waits. The root, at depth 0, has no sibling.
fn has_left(finished: &[Finished], depth: usize) -> bool
    ensures { MatchBool result (HasLeft depth (branches finished.now)) (¬ (HasLeft depth (branches finished.now))) }
{
    let count = finished.len();
    if count == 0 {
        return false;
    }
    if depth == 0 {
        return false;
    }
    finished[count - 1].depth == depth
}

/// Pops the left sibling of a subtree at this depth; None if it is not on top of the stack.
pub(crate) fn take_left(finished: &mut Vec<Finished>, depth: usize) -> Option<Finished>
    ensures { MatchOption result
        ((finished.new.items ≡ finished.old.items) × ¬ (HasLeft depth (branches finished.old.items)))
        (λ left. (0 < depth) × (branches finished.old.items ≡ branch_of left ∷ branches finished.new.items) × (left.depth ≡ depth)) }
{
    if !has_left(finished, depth) {
        return None;
    }
    finished.pop()
}

/// Pushes a finished subtree at this depth on the stack, on which it waits for its right sibling.
pub(crate) fn put_finished(
    finished: &mut Vec<Finished>,
    depth: usize,
    subtree: Subtree,
) -> Result<(), JoinFault>
    ensures put { OnOk result (branches finished.new.items ≡ record { depth = depth; id = subtree.id; clause = subtree.clause.items } ∷ branches finished.old.items) }
    ensures memory { IfErr result (λ f. f ≡ JoinFault.NoMemory) }
{
    finished.push(Finished { depth, subtree })?;
    Ok(())
}
