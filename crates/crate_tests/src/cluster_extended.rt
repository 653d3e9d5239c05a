//! Clauses that are added at nodes.

use crate::cluster_open::{cluster_of, offer};
use crate::inputs::{FOUR, UNITS, literal_of};
use crate::told::{Found, Told, formula_of, hears, polled, says};
use cluster::{OpenCluster, OpenEvent};
use coordinator_core::Coordinator;
use dimacs::{Builder, Extension};
use frames::Answer;
use icnf::Tree;
use lrat_check::{Reaction, Verdict};
use std::alloc::Global;
use std::process::Abort;

/// A proof of the four clauses, which defines a variable by RAT lemmas.
const WITH_GROUPS: &[u8] =
    b"5 3 -1 -2 0 0\n6 -3 1 0 -5 0\n7 -3 2 0 -5 0\n8 2 0 1 2 0\n9 0 8 3 4 0\n";

/// What a node holds.
#[derive(Clone, Copy)]
enum Held<'a> {
    Nothing,
    Values(&'a [bool]),
    Text(&'a [u8]),
}

fn is_held(verdict: &Verdict, held: Held<'_>) -> bool {
    match (verdict, held) {
        (Verdict::Nothing, Held::Nothing) => true,
        (Verdict::Model(values), Held::Values(wanted)) => values.values() == wanted,
        (Verdict::Proof(text), Held::Text(wanted)) => text.as_plain() == Some(wanted),
        _ => false,
    }
}

fn holds(cluster: &OpenCluster, node: usize, held: Held<'_>) -> bool {
    match cluster.verdict(node) {
        Some(verdict) => is_held(verdict, held),
        None => false,
    }
}

/// A clause of these literals.
fn clause_of(rt: &impl Abort, alloc: Global, numbers: &[i32]) -> Extension {
    let mut builder = Builder::new(alloc).expect(rt, "memory");
    for number in numbers {
        assert!(rt; builder.literals() < 100);
        builder.push(literal_of(rt, *number)).expect(rt, "memory");
    }
    assert!(rt; builder.len() < 100);
    builder.end_clause().expect(rt, "memory");
    assert!(rt; !builder.is_open());
    let vars = builder.greatest();
    assert!(rt; vars < 100);
    builder.finish_extension(vars)
}

/// Adds a clause at node 1, which goes on under number 2.
fn extend(rt: &impl Abort, alloc: Global, cluster: &mut OpenCluster, clause: &[i32]) {
    let extension = clause_of(rt, alloc, clause);
    let event = OpenEvent::Extend {
        node: 1,
        extension,
        number: 2,
    };
    assert_eq!(rt; cluster.step(&event), Reaction::Taken);
}

/// A worker holds a proof of the four clauses; this is left of it behind a clause more.
fn keeps(rt: &impl Abort, alloc: Global, proof: &[u8], clause: &[i32], kept: Held<'_>) {
    let mut cluster = cluster_of(rt, alloc, FOUR);
    offer(rt, alloc, &mut cluster, Answer::Refuted, proof);
    assert!(rt; holds(&cluster, 1, Held::Text(proof)));
    extend(rt, alloc, &mut cluster, clause);
    assert!(rt; holds(&cluster, 1, kept));
}

#[test]
fn a_proof_that_is_wrong_for_more_clauses_is_dropped(rt: HostRuntime) {
    let kept = b"6 3 -1 -2 0 0\n7 -3 1 0 -6 0\n8 -3 2 0 -6 0\n9 2 0 1 2 0\n10 0 9 3 4 0\n";
    keeps(&rt, rt.alloc(), WITH_GROUPS, &[3], Held::Nothing);
    keeps(&rt, rt.alloc(), WITH_GROUPS, &[1], Held::Text(kept));
}

/// A clause more comes to a coordinator, which goes on in a session, and then holds this.
fn extend_coordinator(
    rt: &impl Abort,
    coordinator: &mut Coordinator,
    extension: &Extension,
    session: u64,
    kept: Held<'_>,
) {
    assert_eq!(rt; coordinator.extend(extension, session), Reaction::Taken);
    assert_eq!(rt; coordinator.session(), session);
    assert!(rt; is_held(coordinator.verdict(), kept));
}

/// A coordinator of the units, one worker and one leaf.
fn coordinator_of(rt: &impl Abort, alloc: Global) -> Coordinator {
    let formula = formula_of(rt, alloc, UNITS);
    let tree = Tree::leaf(alloc).expect(rt, "memory");
    Coordinator::new(alloc, formula, tree, 1000, 1, 1).expect(rt, "memory")
}

/// A worker tells it their assignment.
fn tell_assignment(rt: &impl Abort, alloc: Global, coordinator: &mut Coordinator) {
    polled(rt, coordinator, 1);
    let done = Told::Done(1, 1, Found::Values(2));
    hears(rt, alloc, coordinator, 1, done, Reaction::Taken);
    let piece = Told::Piece(1, 1, 0, &[1, 0]);
    hears(rt, alloc, coordinator, 1, piece, Reaction::Verdict);
}

#[test]
fn a_coordinator_begins_again_with_one_leaf(rt: HostRuntime) {
    let a = rt.alloc();
    let mut coordinator = coordinator_of(&rt, a);
    tell_assignment(&rt, a, &mut coordinator);
    let longer = clause_of(&rt, a, &[-3, 1]);
    let values = Held::Values(&[true, false, false]);
    extend_coordinator(&rt, &mut coordinator, &longer, 2, values);
    let wrong = clause_of(&rt, a, &[2]);
    extend_coordinator(&rt, &mut coordinator, &wrong, 3, Held::Nothing);
    says(&rt, a, &mut coordinator, 3, 1, Told::Task(1, &[]));
}
