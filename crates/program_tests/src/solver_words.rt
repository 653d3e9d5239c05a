//! What the words of a solver ask for, what is told of them, and which calls are those of a solver.

use command_line::{read_words, solver_call};
use std::alloc::Global;
use std::process::Abort;
use std::str::from_utf8;

/// The words of a line.
fn words_of(rt: &impl Abort, alloc: Global, line: &str) -> Vec<String> {
    let mut words = Vec::new(alloc);
    for word in line.split(' ') {
        let word = format!(in alloc; "{word}").expect(rt, "memory");
        words.push(word).expect(rt, "memory");
    }
    words
}

/// The names of the two files, the limit, and whether an assignment is printed; and what is told.
fn asked(
    rt: &impl Abort,
    alloc: Global,
    line: &str,
    files: (Option<&str>, Option<&str>),
    asked: (Option<u64>, bool),
    told: &str,
) {
    let words = words_of(rt, alloc, line);
    let mut out = Vec::new(alloc);
    let solving = read_words(&mut out, &words).expect(rt, "memory");
    assert!(rt; (solving.input, solving.second) == files);
    assert!(rt; (solving.limit, solving.witness) == asked);
    assert!(rt; from_utf8(&out) == Ok(told));
}

#[test]
fn words_of_other_solvers_are_passed_over(rt: HostRuntime) {
    let line = "--sat --seed=7 -n -verb=0 --no-elim -P2 --no-binary f.cnf f.lrat";
    let files = (Some("f.cnf"), Some("f.lrat"));
    asked(&rt, rt.alloc(), line, files, (None, false), "");
}

#[test]
fn what_is_not_done_is_told(rt: HostRuntime) {
    let line = "--odd -t 5 --limit 0 --limit=7 -w out --quiet=0 -- -f - h";
    let told = "c --odd is passed over: no such word is known
c -t is passed over: only the script satcluster-solver limits the time
c 0 is passed over: a limit is a number from 1 to 1000000000
c -w is passed over: the answer is on standard output
c h is passed over: two files are named already
";
    let files = (Some("-f"), Some("-"));
    asked(&rt, rt.alloc(), line, files, (Some(7), true), told);
}

#[test]
fn a_word_that_ends_a_line_is_told_on_one(rt: HostRuntime) {
    let told = "c --x?s?SATISFIABLE?? is passed over: no such word is known\n";
    let line = "--x\ns\tSATISFIABLE\u{e9}";
    asked(&rt, rt.alloc(), line, (None, None), (None, true), told);
}

/// Whether MiniSat is called, and how many words the solver has; `None` if no solver is called.
fn called(rt: &impl Abort, alloc: Global, line: &str) -> Option<(bool, usize)> {
    let words = words_of(rt, alloc, line);
    match solver_call(&words) {
        Some(call) => Some((call.is_minisat, call.words.len())),
        None => None,
    }
}

#[test]
fn solvers_are_called_by_their_names_or_by_the_command(rt: HostRuntime) {
    let alloc = rt.alloc();
    assert!(rt; called(&rt, alloc, "/usr/bin/minisat f out") == Some((true, 2)));
    assert!(rt; called(&rt, alloc, "./kissat solver") == Some((false, 1)));
    assert!(rt; called(&rt, alloc, "cadical") == Some((false, 0)));
    assert!(rt; called(&rt, alloc, "bin/satcluster solver -q f") == Some((false, 2)));
    assert!(rt; called(&rt, alloc, "minisat/satcluster decide f").is_none());
    assert!(rt; called(&rt, alloc, "minisatx").is_none());
}
