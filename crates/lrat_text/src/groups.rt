//! Groups of RAT hints: each has a candidate (the number of a clause that has the pivot's negation) and the hints that refute the resolvent
//! with that clause.

ghost use Rattle.std.specs.Prelude.{◌≡◌, ◌^◌, ◌<◌, [], ◌∷◌, ◌++◌, length, ◌==◌, slice_get, Some, OnOk, OnErr};
ghost use Rattle.lrat_text.specs.inner.Groups.{start_at};
ghost use Rattle.lrat_text.specs.GroupLists.{with_hint};

use std::alloc::{AllocError, Global};
use std::marker::Model;

/// A group's candidate, and the end of its hints in the list of all groups' hints.
#[derive(Clone, Copy)]
struct Head {
    /// The candidate's clause number.
    candidate: u64,
    /// The index after the group's last hint in the list of all hints.
    end: usize,
}

/// Groups in their written order. The hints of all groups are in one vector.
#[derive(Drop)]
pub struct Groups {
    /// One head for each group, in their written order.
    heads: Vec<Head>,
    /// The hints of all groups, one group after the other.
    hints: Vec<u64>,
}

/// Answers the index of the first hint of group `i` (from 0) in the list of all hints.
fn start_of(heads: &[Head], i: usize) -> usize
    requires { i < length heads.now }
    ensures { result ≡ start_at 0 heads.now i }
{
    if i == 0 { 0 } else { heads[i - 1].end }
}

impl Model for Groups {
    ghost use Rattle.std.specs.Prelude.{◌≡◌, List, vec_len};
    ghost use Rattle.dimacs.specs.logic.Rat.{Group};

    ghost Value = { List Group };

    ghost use Rattle.lrat_text.specs.Groups.{groups_from};
    ghost use Rattle.lrat_text.specs.inner.Groups.{AreHeads};

    ghost view = { λ g. groups_from 0 g.heads.items g.hints.items };

    ghost invariant = { λ g. AreHeads 0 g.heads.items (vec_len g.hints) };
}

impl Groups {
    /// An empty list of groups.
    pub fn new(alloc: Global) -> Groups
        ensures { result ≡ [] }
    {
        Groups {
            heads: Vec::new(alloc),
            hints: Vec::new(alloc),
        }
    }

    #[tactic(auto, using(crate::proofs::GroupLemmas::length_groups))]
    /// Answers the number of groups.
    pub fn len(&self) -> usize
        ensures value { result ≡ length self.now }
        ensures below { result < 2 ^ 63 }
    {
        self.heads.len()
    }

    #[tactic(auto, using(crate::proofs::GroupLemmas::length_groups))]
    /// Answers whether there is no group.
    pub fn is_empty(&self) -> bool
        ensures { result ≡ (length self.now == 0) }
    {
        self.heads.is_empty()
    }

    /// Answers the candidate of group `i` (from 0), and lends its hints.
    pub fn get(&self, i: usize) -> (u64, &[u64])
        requires { i < length self.now }
        ensures { slice_get self.now i ≡ Some (result.0, result.1.now) }
    {
        let start = start_of(&self.heads, i);
        let head = self.heads[i];
        (head.candidate, &self.hints[start..head.end])
    }

    /// Removes all groups, and keeps the memory.
    pub fn clear(&mut self)
        ensures { self.new ≡ [] }
    {
        self.heads.clear();
        self.hints.clear();
    }

    /// Appends a group with this candidate and these hints. If memory is refused, the groups are as before.
    pub fn push(&mut self, candidate: u64, hints: &[u64]) -> Result<(), AllocError>
        ensures ok { OnOk result (self.new ≡ self.old ++ (candidate, hints.now) ∷ []) }
        ensures err { OnErr result (self.new ≡ self.old) }
    {
        self.heads.reserve(1)?;
        self.hints.extend_from_slice(hints)?;
        let end = self.hints.len();
        self.heads.push(Head { candidate, end })?;
        Ok(())
    }

    /// Appends a hint to the last group. If memory is refused, the groups are as before.
    pub fn push_hint(&mut self, hint: u64) -> Result<(), AllocError>
        requires { 0 < length self.old }
        ensures ok { OnOk result (self.new ≡ with_hint hint self.old) }
        ensures err { OnErr result (self.new ≡ self.old) }
    {
        self.hints.push(hint)?;
        let end = self.hints.len();
        let last = self.heads.len() - 1;
        self.heads[last].end = end;
        Ok(())
    }
}
