//! What one search over a whole formula reports.

use crate::check::FOUR;
use crate::run_reports::{refutes, says};
use crate::solve::EIGHT;
use crate::solve_profile::pigeons;
use cube_solve::{Counts, Observer, Unobserved};
use dimacs::{Formula, read};
use formula_search::{Asked, decide};
use lrat_check::check_fragment;
use node_main::Report;
use std::alloc::Global;
use std::process::Abort;

/// A search without a limit, whose assignment is printed.
const PLAIN: Asked = Asked {
    limit: None,
    witness: true,
    stats: false,
};

/// A search that may learn one lemma.
const BRIEF: Asked = Asked {
    limit: Some(1),
    ..PLAIN
};

/// A search whose assignment is not printed.
const SHORT: Asked = Asked {
    witness: false,
    ..PLAIN
};

/// A search whose counts are printed.
const COUNTED: Asked = Asked {
    stats: true,
    ..PLAIN
};

fn formula_of(rt: &impl Abort, alloc: Global, input: &[u8]) -> Formula {
    match read(alloc, input) {
        Ok(formula) => formula,
        Err(_) => panic!(rt; "the input is refused"),
    }
}

fn decided(rt: &impl Abort, alloc: Global, input: &[u8], asked: Asked) -> Report {
    let formula = formula_of(rt, alloc, input);
    decide(alloc, &formula, asked, &mut Unobserved).expect(rt, "memory")
}

/// An input, a search, and what is printed.
const ANSWERS: [(&'static [u8], Asked, &'static [u8]); 7] = [
    (b"p cnf 0 0\n", PLAIN, b"s SATISFIABLE\nv 0\n"),
    (
        b"p cnf 2 2\n1 0\n-2 0\n",
        PLAIN,
        b"s SATISFIABLE\nv 1 -2 0\n",
    ),
    (b"p cnf 2 2\n1 0\n-2 0\n", SHORT, b"s SATISFIABLE\n"),
    // Nothing is done of nothing, in the first phase.
    (
        b"p cnf 0 0\n",
        COUNTED,
        b"s SATISFIABLE\nv 0\nc conflicts 0\nc decisions 0\nc propagations 0\nc restarts 0\nc reductions 0\nc phases 1\nc lemmas 0\nc fixed 0\nc bytes 0\n",
    ),
    // Both variables are fixed by propagation.
    (
        b"p cnf 2 2\n1 0\n-2 0\n",
        COUNTED,
        b"s SATISFIABLE\nv 1 -2 0\nc conflicts 0\nc decisions 0\nc propagations 2\nc restarts 0\nc reductions 0\nc phases 1\nc lemmas 0\nc fixed 2\nc bytes 0\n",
    ),
    // The empty clause needs no lemma but itself.
    (b"p cnf 0 1\n0\n", BRIEF, b"s UNSATISFIABLE\n"),
    // One lemma is too few.
    (EIGHT, BRIEF, b"s UNKNOWN\n"),
];

#[test]
fn a_formula_is_decided_or_given_up_at_the_limit(rt: HostRuntime) {
    for (input, asked, want) in &ANSWERS {
        says(&rt, &decided(&rt, rt.alloc(), *input, *asked), *want);
    }
}

/// The report refutes an input, by a proof that also closes the tree of one leaf.
fn closes(rt: &impl Abort, alloc: Global, input: &[u8]) {
    let proof = refutes(rt, alloc, input, &decided(rt, alloc, input, PLAIN));
    let formula = formula_of(rt, alloc, input);
    assert!(rt; check_fragment(alloc, formula.as_base(), &[], &proof).is_ok());
}

#[test]
fn a_proof_is_verified_and_closes_the_tree_of_one_leaf(rt: HostRuntime) {
    closes(&rt, rt.alloc(), FOUR);
    closes(&rt, rt.alloc(), EIGHT);
}

/// An observer that counts its looks.
#[derive(Drop)]
struct Looks {
    count: u64,
}

impl Observer for Looks {
    fn see(&mut self, _counts: &Counts) {
        self.count = self.count.saturating_add(1);
    }
}

/// It looks after each 1,000 lemmas and at the end, so once at a search of a few.
#[test]
fn an_observer_changes_no_byte_of_the_proof(rt: HostRuntime) {
    let a = rt.alloc();
    let mut looks = Looks { count: 0 };
    let seen = decide(a, &formula_of(&rt, a, EIGHT), PLAIN, &mut looks).expect(&rt, "memory");
    let proof = refutes(&rt, a, EIGHT, &decided(&rt, a, EIGHT, PLAIN));
    assert!(&rt; looks.count == 1 && refutes(&rt, a, EIGHT, &seen) == proof);
}

/// Eight pigeons in seven holes take more than 2,000 lemmas, so that variables are eliminated.
#[test]
fn resolvents_come_first_in_the_proof_of_a_longer_search(rt: HostRuntime) {
    let text = pigeons(&rt, rt.alloc());
    let input = text.as_str().as_bytes();
    closes(&rt, rt.alloc(), input);
    let proof = refutes(
        &rt,
        rt.alloc(),
        input,
        &decided(&rt, rt.alloc(), input, PLAIN),
    );
    // Pigeon 1 is not alone: clause 1 says it sits somewhere, clause 156 that it shares no hole.
    assert!(&rt;
        proof
            .as_slice()
            .starts_with(b"205 2 3 4 5 6 7 -50 0 1 156 0\n")
    );
    let most = Asked {
        limit: Some(100_000),
        ..PLAIN
    };
    let searched = refutes(
        &rt,
        rt.alloc(),
        input,
        &decided(&rt, rt.alloc(), input, most),
    );
    assert!(&rt; searched != proof);
}
