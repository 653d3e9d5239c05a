//! Fragments that are joined into one proof.

ghost use Rattle.std.specs.Prelude.{◌≡◌, length, map, IfOk};
ghost use Rattle.proof_join.specs.JoinedProof.{AllClose};

use super::call::{Answer, Call, Tried, try_twice};
use super::checks::answer_of;
use crate::formulas::FOUR;
use cube_split::preamble;
use dimacs::{Base, Formula, Var, read};
use icnf::Tree;
use lrat_check::{CheckFault, check_fragment};
use proof_join::{JoinFault, join};
use std::alloc::Global;

/// A fragment that closes the leaf of the literal 1.
pub(crate) const LEFT: &[u8] = b"5 -1 0 2 4 0\n";

/// A fragment that closes the leaf of the literal -1.
const RIGHT: &[u8] = b"5 1 0 1 3 0\n";

/// Another fragment that closes the leaf of the literal -1, with a deletion.
pub(crate) const RIGHT_WITH_DELETION: &[u8] = b"5 2 0 1 2 0\n6 1 2 0 1 0\n6 d 6 0\n7 1 0 5 3 0\n";

/// Fragments for the leaves of a tree.
struct Fragments {
    alloc: Global,
    formula: Formula,
    tree: Tree,
    texts: Vec<Vec<u8>>,
}

impl Drop for Fragments {
    fn drop(self) {
        let Fragments {
            alloc: _,
            formula: _,
            tree: _,
            texts: _,
        } = self;
    }
}

/// Tests whether each fragment closes the leaf at its place, as a join requires.
fn all_close(
    alloc: Global,
    base: &Base,
    tree: &Tree,
    fragments: &[Vec<u8>],
) -> Result<(), CheckFault>
    requires { length fragments.now ≡ length tree.now }
    ensures { IfOk result (λ _. AllClose base.now tree.now (map (λ v. v.items) fragments.now)) }
{
    for leaf in 0..tree.leaves() {
        match check_fragment(alloc, base, tree.cube(leaf), &fragments[leaf]) {
            Ok(()) => {}
            Err(fault) => return Err(fault),
        }
    }
    Ok(())
}

/// Joins fragments that close all leaves of a tree, and answers the text.
fn joined(alloc: Global, formula: &Formula, tree: &Tree, fragments: &[Vec<u8>]) -> Answer {
    let Ok(units) = preamble(alloc, formula) else {
        return Answer::NoMemory;
    };
    let Ok(base) = units.base(alloc, formula) else {
        return Answer::NoMemory;
    };
    if fragments.len() != tree.leaves() {
        return Answer::Said("not a fragment for each leaf\n");
    }
    if let Err(fault) = all_close(alloc, &base, tree, fragments) {
        return answer_of(Err(fault));
    }
    match join(alloc, formula, &units, tree, fragments) {
        Ok(text) => Answer::Made(text),
        Err(JoinFault::NoMemory) => Answer::NoMemory,
        Err(JoinFault::TooLong) => Answer::Said("too long\n"),
    }
}

impl Call for Fragments {
    /// Joins the fragments.
    fn make(&mut self) -> Answer {
        joined(self.alloc, &self.formula, &self.tree, &self.texts)
    }
}

/// Makes the tree of the two leaves 1 and -1.
fn halves(alloc: Global) -> Option<Tree> {
    let mut tree = Tree::leaf(alloc).ok()?;
    tree.split(0, Var::new(1)).ok()?;
    Some(tree)
}

/// Joins a fragment of the left leaf and this one of the right leaf, twice if memory was wanting.
fn joined_of(alloc: Global, right: &[u8]) -> Option<Tried> {
    let formula = read(alloc, FOUR).ok()?;
    let tree = halves(alloc)?;
    let mut texts = Vec::new(alloc);
    texts.push(Vec::from_slice(alloc, LEFT).ok()?).ok()?;
    texts.push(Vec::from_slice(alloc, right).ok()?).ok()?;
    let mut fragments = Fragments {
        alloc,
        formula,
        tree,
        texts,
    };
    Some(try_twice(&mut fragments))
}

/// Joins two fragments that have additions alone.
pub(crate) fn joined_lines(alloc: Global) -> Option<Tried> {
    joined_of(alloc, RIGHT)
}

/// Joins two fragments of which one has a deletion.
pub(crate) fn joined_deletions(alloc: Global) -> Option<Tried> {
    joined_of(alloc, RIGHT_WITH_DELETION)
}
