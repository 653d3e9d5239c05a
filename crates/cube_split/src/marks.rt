//! Tables of marks, one for each literal.

ghost use Rattle.std.specs.Prelude.{◌≡◌, ◌+◌, ◌*◌, ◌<◌, ◌≤◌, ◌↔◌, IfOk, ◌||◌, ◌&&◌, length, IsTrue, Bool, All, not, false};
ghost use Rattle.std.specs.List.{list_any};
ghost use Rattle.dimacs.specs.logic.Literal.{Literal, index_of, has};
ghost use Rattle.cube_split.specs.inner.Marks.{AreMarked};

use dimacs::Lit;
use std::alloc::{AllocError, Global};

/// Sets the marks of these literals. A literal outside the table is ignored.
pub(crate) fn mark(marks: &mut [bool], literals: &[Lit])
    ensures { (test : Literal → Bool) → AreMarked marks.old test → AreMarked marks.new (λ l. test l || has literals.now l) }
{
    for literal in literals {
        let at = literal.index();
        if at < marks.len() {
            marks[at] = true;
        }
    }
}

/// A table for the variables up to `vars` in which exactly these literals are marked.
pub(crate) fn marks_of(alloc: Global, literals: &[Lit], vars: u32) -> Result<Vec<bool>, AllocError>
    requires { vars ≤ 100000063 }
    ensures marked { IfOk result (λ m. AreMarked m.items (has literals.now)) }
    ensures size { IfOk result (λ m. length m.items ≡ 2 * (vars + 1)) }
{
    let mut marks = vec![in alloc; false; 2 * (vars as usize + 1)]?;
    mark(&mut marks, literals);
    Ok(marks)
}

/// Clears the marks of these literals. A literal outside the table is ignored.
pub(crate) fn unmark(marks: &mut [bool], literals: &[Lit])
    ensures { (test : Literal → Bool) → AreMarked marks.old test → AreMarked marks.new (λ l. test l && not (has literals.now l)) }
{
    for literal in literals {
        let at = literal.index();
        if at < marks.len() {
            marks[at] = false;
        }
    }
}

/// Whether no literal of the clause is marked.
pub(crate) fn is_apart(marks: &[bool], clause: &[Lit]) -> bool
    requires { All (λ l. index_of l < length marks.now) clause.now }
    ensures { (test : Literal → Bool) → AreMarked marks.now test → result ≡ not (list_any test clause.now) }
{
    for literal in clause {
        if marks[literal.index()] {
            return false;
        }
    }
    true
}
