//! How the search goes: the values that it tries again, the literals that its lemmas do without, and the lemmas that it forgets.

ghost use Rattle.std.specs.Prelude.{◌<◌};

use crate::run_reports::{ALONE, refutes, says, solved};
use std::alloc::Global;
use std::fmt::Write;
use std::process::Abort;

/// A pigeon sits in one of the holes behind this variable.
fn put_holes(rt: &impl Abort, text: &mut String, first: u32)
    requires { first < 100 }
{
    for hole in 1..8u32 {
        write!(text, "{} ", first + hole).expect(rt, "memory");
    }
    text.push_str("0\n").expect(rt, "memory");
}

/// Two pigeons do not sit in one hole.
fn put_apart(rt: &impl Abort, text: &mut String, first: u32, other: u32)
    requires one { first < 100 }
    requires two { other < 100 }
{
    for hole in 1..8u32 {
        write!(text, "-{} -{} 0\n", first + hole, other + hole).expect(rt, "memory");
    }
}

/// Eight pigeons sit in seven holes, and no two of them in one: the variable of a pigeon and a hole is seven times the
/// pigeon's number, and the hole's, from 1.
pub(crate) fn pigeons(rt: &impl Abort, alloc: Global) -> String {
    let mut text = String::new(alloc);
    write!(text, "p cnf 56 204\n").expect(rt, "memory");
    for pigeon in 0..8u32 {
        put_holes(rt, &mut text, 7 * pigeon);
        for other in 0..pigeon {
            put_apart(rt, &mut text, 7 * pigeon, 7 * other);
        }
    }
    text
}

/// How often a text holds a word of three bytes.
fn count(text: &[u8], word: &[u8]) -> usize {
    text.windows(3).filter(|part| *part == word).count()
}

#[test]
fn a_variable_is_decided_with_its_last_value(rt: HostRuntime) {
    // The last three clauses leave no literal pure.
    let input = b"p cnf 4 6\n1 4 0\n2 3 0\n2 -3 0\n1 -1 0\n2 -2 0\n4 -4 0\n";
    let report = solved(&rt, rt.alloc(), input, None, &ALONE);
    says(&rt, &report, b"s SATISFIABLE\nv -1 2 3 4 0\n");
}

#[test]
fn a_lemma_does_without_what_follows_by_two_reasons(rt: HostRuntime) {
    // From -1 come 2 and 3, and with -4 the fourth clause is false: -3 follows from 1, by way of 2, which no clause of the
    // conflict names.
    let input = b"p cnf 7 8\n1 2 0\n-2 3 0\n4 1 5 0\n4 -3 -5 0\n-4 6 0\n-4 -6 0\n-1 7 0\n-1 -7 0\n";
    let report = solved(&rt, rt.alloc(), input, None, &ALONE);
    let proof = refutes(&rt, rt.alloc(), input, &report);
    assert!(rt;
        proof.as_slice() == b"9 4 1 0 1 2 3 4 0\n10 -4 0 5 6 0\n11 0 10 9 7 8 0\n".as_slice()
    );
}

#[test]
fn forgotten_lemmas_are_lines_of_the_proof(rt: HostRuntime) {
    let text = pigeons(&rt, rt.alloc());
    let input = text.as_str().as_bytes();
    let report = solved(&rt, rt.alloc(), input, None, &ALONE);
    let proof = refutes(&rt, rt.alloc(), input, &report);
    assert!(rt; count(proof.as_slice(), b" d ") > 0);
    assert_eq!(rt; count(proof.as_slice(), b"d 0"), 0);
}
