//! Fragments that are joined into one proof.

ghost use Rattle.std.specs.Prelude.{◌≡◌, ◌≤◌, true, length, map};
ghost use Rattle.proof_join.specs.JoinedProof.{AllClose};

use crate::check::{FOUR, VERIFIED, prints};
use cube_split::preamble_with;
use dimacs::{Base, Var, read};
use icnf::Tree;
use lrat_check::check_fragment;
use proof_join::join;
use std::alloc::Global;
use std::process::Abort;

/// The four clauses, and `3 1`, by which 3 is pure.
const FIVE: &[u8] = b"p cnf 3 5\n1 2 0\n-1 2 0\n1 -2 0\n-1 -2 0\n3 1 0\n";

/// Whether each fragment closes the leaf at its place.
fn all_close(alloc: Global, base: &Base, tree: &Tree, fragments: &[Vec<u8>]) -> bool
    requires { length fragments.now ≡ length tree.now }
    ensures { result ≡ true → AllClose base.now tree.now (map (λ v. v.items) fragments.now) }
{
    for leaf in 0..tree.leaves() {
        match check_fragment(alloc, base, tree.cube(leaf), &fragments[leaf]) {
            Ok(()) => {}
            Err(_) => return false,
        }
    }
    true
}

fn texts_of(rt: &impl Abort, alloc: Global, texts: &[&'static [u8]]) -> Vec<Vec<u8>> {
    let mut fragments = Vec::new(alloc);
    for text in texts {
        let fragment = Vec::from_slice(alloc, *text).expect(rt, "memory");
        fragments.push(fragment).expect(rt, "memory");
    }
    fragments
}

/// Fragments that close all leaves are joined to this, which is a proof of the input.
fn are_joined(
    rt: &impl Abort,
    alloc: Global,
    input: &[u8],
    defs: u32,
    tree: &Tree,
    texts: &[&'static [u8]],
    want: &[u8],
)
    requires { defs ≤ 64 }
{
    let formula = read(alloc, input).expect(rt, "a formula");
    let units = preamble_with(alloc, &formula, defs).expect(rt, "memory");
    let base = units.base(alloc, &formula).expect(rt, "memory");
    let fragments = texts_of(rt, alloc, texts);
    assert!(rt; fragments.len() == tree.leaves());
    assert!(rt; all_close(alloc, &base, tree, &fragments));
    match join(alloc, &formula, &units, tree, &fragments) {
        Ok(text) => {
            assert_eq!(rt; text.as_slice(), want);
            prints(rt, alloc, input, text.as_slice(), VERIFIED);
        }
        Err(_) => panic!(rt; "no text"),
    }
}

/// The tree of the leaves of a variable.
fn halves(rt: &impl Abort, alloc: Global, variable: u32) -> Tree {
    assert!(rt; variable >= 1 && variable < 100);
    let mut tree = Tree::leaf(alloc).expect(rt, "memory");
    tree.split(0, Var::new(variable)).expect(rt, "memory");
    tree
}

/// Fragments of the four clauses for the leaves 1 and -1, and what is joined.
type Row = ([&'static [u8]; 2], &'static [u8]);

const ROWS: [Row; 2] = [
    // A deletion begins with the last number.
    (
        [
            b"5 -1 0 2 4 0\n",
            b"5 2 0 1 2 0\n6 1 2 0 1 0\n6 d 6 0\n7 1 0 5 3 0\n",
        ],
        b"5 -1 0 2 4 0\n6 2 0 1 2 0\n7 1 2 0 1 0\n7 d 7 0\n8 1 0 6 3 0\n9 0 5 8 0\n",
    ),
    // A left clause that needs no branch stands for the fork.
    (
        [b"5 2 0 1 2 0\n6 0 5 3 4 0\n", b"5 1 0 1 3 0\n"],
        b"5 2 0 1 2 0\n6 0 5 3 4 0\n7 1 0 1 3 0\n",
    ),
];

#[test]
fn two_fragments_and_their_fork_are_one_proof(rt: HostRuntime) {
    let tree = halves(&rt, rt.alloc(), 1);
    for (texts, want) in &ROWS {
        are_joined(&rt, rt.alloc(), FOUR, 0, &tree, texts, *want);
    }
}

/// Spaces that are not needed go.
#[test]
fn the_preamble_comes_first(rt: HostRuntime) {
    let tree = Tree::leaf(rt.alloc()).expect(&rt, "memory");
    let fragment: [&'static [u8]; 1] = [b"7 2 0 1 2 0\n8 0 7 3 4 0\n"];
    let want = b"6 3 0 0\n7 2 0 1 2 0\n8 0 7 3 4 0\n";
    are_joined(&rt, rt.alloc(), FIVE, 0, &tree, &fragment, want);
    let spaced: [&'static [u8]; 1] = [b"5  2 0 1 2 0\n3 d 5  0\n6 2 0 1 2 0\n7 0 6   3 4 0\n"];
    let want = b"5 2 0 1 2 0\n5 d 5 0\n6 2 0 1 2 0\n7 0 6 3 4 0\n";
    are_joined(&rt, rt.alloc(), FOUR, 0, &tree, &spaced, want);
}

#[test]
fn definitions_come_behind_the_units(rt: HostRuntime) {
    let tree = halves(&rt, rt.alloc(), 3);
    let texts: [&'static [u8]; 2] = [b"8 -3 0 6 7 4 0\n", b"8 2 0 1 2 0\n9 0 8 3 4 0\n"];
    let want =
        b"5 3 -1 -2 0 0\n6 -3 1 0 -5 0\n7 -3 2 0 -5 0\n8 -3 0 6 7 4 0\n9 2 0 1 2 0\n10 0 9 3 4 0\n";
    are_joined(&rt, rt.alloc(), FOUR, 1, &tree, &texts, want);
}
