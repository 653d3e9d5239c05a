//! Marks of literals, all of which are cleared at once.

ghost use Rattle.std.specs.Prelude.{◌≡◌, ◌+◌, ◌<◌, true, false, [], ◌∷◌, ◌++◌, length, filter, nat_eq, slice_index_or, All, IfOk, OnOk};
ghost use Rattle.dimacs.specs.logic.Literal.{IsWithin, index_of};
ghost use Rattle.cube_solve.specs.inner.Marks.{AreMarks};
ghost use Rattle.cube_solve.specs.inner.Queries.{AreStamped};

use crate::base_loader::keep_first;
use dimacs::Lit;
use std::alloc::{AllocError, Global};

/// A stamp for each literal, at its index. A literal is marked if its stamp is the present one, so that a new stamp clears all marks.
#[derive(Drop)]
pub(crate) struct Marks {
    /// By index of the literal.
    pub(crate) stamps: Vec<u32>,
    /// The present stamp.
    pub(crate) stamp: u32,
}

/// Whether a literal is marked: it has the present stamp. A literal outside the table has the stamp
/// 0.
pub(crate) fn is_marked(marks: &Marks, literal: Lit) -> bool
    ensures { result ≡ nat_eq (slice_index_or marks.now.stamps.items (index_of literal) 0) marks.now.stamp }
{
    match marks.stamps.get(literal.index()) {
        Some(&found) => found == marks.stamp,
        None => marks.stamp == 0,
    }
}

/// Appends a literal to `literals` if `kept` is true. A function of its own, for its contract.
fn keep_if(kept: bool, literal: Lit, literals: &mut Vec<Lit>) -> Result<(), AllocError>
    ensures yes { OnOk result (kept ≡ true → literals.new.items ≡ literals.old.items ++ literal ∷ []) }
    ensures no { OnOk result (kept ≡ false → literals.new.items ≡ literals.old.items) }
{
    if kept {
        literals.push(literal)?;
    }
    Ok(())
}

/// The literals of this list that are marked, in their order.
pub(crate) fn marked_of(
    alloc: Global,
    marks: &Marks,
    literals: &[Lit],
) -> Result<Vec<Lit>, AllocError>
    ensures { IfOk result (λ kept. kept.items ≡ filter (λ l. nat_eq (slice_index_or marks.now.stamps.items (index_of l) 0) marks.now.stamp) literals.now) }
{
    let mut kept = Vec::new(alloc);
    for &literal in literals {
        keep_if(is_marked(marks, literal), literal, &mut kept)?;
    }
    Ok(kept)
}

impl Marks {
    /// Marks for the literals of the variables from 1 to `vars`, none of them marked.
    pub(crate) fn new(alloc: Global, vars: u32) -> Result<Marks, AllocError>
        ensures { IfOk result (AreStamped vars) }
    {
        let rows = vars as usize;
        Ok(Marks {
            stamps: vec![in alloc; 0; 2 * rows + 2]?,
            stamp: 0,
        })
    }

    /// Clears all marks: takes a stamp that no literal has, which is at least 1.
    fn renew(&mut self) -> Result<(), AllocError>
        requires { All (λ s. s < self.old.stamp + 1) self.old.stamps.items }
        ensures some { OnOk result (0 < self.new.stamp) }
        ensures fresh { OnOk result (All (λ s. s < self.new.stamp) self.new.stamps.items) }
        ensures sized { OnOk result (length self.new.stamps.items ≡ length self.old.stamps.items) }
    {
        if self.stamp == u32::MAX {
            let alloc = *self.stamps.allocator();
            let rows = self.stamps.len();
            self.stamps = vec![in alloc; 0; rows]?;
            self.stamp = 0;
        }
        self.stamp += 1;
        Ok(())
    }

    /// Marks exactly the literals of a clause, and appends them to the empty `kept`, each once, in the order of their first occurrences.
    pub(crate) fn mark(
        &mut self,
        vars: u32,
        clause: &[Lit],
        kept: &mut Vec<Lit>,
    ) -> Result<(), AllocError>
        requires stamped { AreStamped vars self.old }
        requires within { All (IsWithin vars) clause.now }
        requires empty { kept.old.items ≡ [] }
        ensures stamped { OnOk result (AreStamped vars self.new) }
        ensures marks { OnOk result (AreMarks clause.now kept.new.items self.new.stamps.items self.new.stamp) }
    {
        self.renew()?;
        keep_first(clause, self.stamps.as_mut_slice(), self.stamp, kept)
    }
}
