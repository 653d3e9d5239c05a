//! The program as a solver that other tools call: by the command `solver`, or by a link that has a solver's name.

use crate::files::Machine;
use crate::solver_disk::SolverMachine;
use command_line::{SolverCall, Solving, read_words};
use commands::{MinisatFiles, Solved, SolverFiles, Target, print, solve_as_minisat, solve_files};
use cube_solve::Unobserved;
use node_main::read_limits;
use std::alloc::AllocError;
use std::cell::Cell;
use std::rt::Runtime;
use std::str::from_utf8;
use std::{env, io};

/// What a solver prints if there is no answer.
const UNKNOWN: &[u8] = b"s UNKNOWN\n";

/// What a solver tells of itself, in place of an answer.
const HELP: &[u8] = b"c satcluster solver [words] [FILE [PROOF]]
c Decides a DIMACS formula, standard input if FILE is left out or is `-`. PROOF is an LRAT proof as text.
c It answers `s SATISFIABLE`, status 10, `s UNSATISFIABLE`, 20, or `s UNKNOWN`, 0.
c By a link named cadical, kissat or satcluster-solver it takes the same words; by one named minisat
c it writes MiniSat's result in the place of PROOF.
c -q: c lines are left out; -n: v lines are left out; --limit L: it ends after L lemmas.
c Words of CaDiCaL, Kissat and MiniSat are taken or passed over. docs/CLIENTS.md tells more.
";

/// The line that tells that the second file is named by `-`.
const NO_FILE: &[u8] = b"c the second file is written: `-` names none\n";

/// The line that tells that the words in the environment are passed over.
const ENVIRONMENT: &[u8] =
    b"c SATCLUSTER_WORDS is passed over: only the script satcluster-solver has it\n";

/// Tells `c` lines: on standard output, or on standard error if they are left out there. A write that fails is ignored.
fn tell<R: Runtime>(rt: &R, quiet: bool, lines: &[u8]) {
    if !quiet {
        let _ = print(&mut io::writer(rt), lines);
    } else if let Ok(text) = from_utf8(lines) {
        let _ = eprint!(rt; "{text}");
    }
}

/// Prints the lines of an answer, and answers the status, which is 0 if not all was printed.
fn print_answer<R: Runtime>(rt: &R, lines: &[u8], status: u8) -> u8 {
    match print(&mut io::writer(rt), lines) {
        Ok(()) => status,
        Err(_) => 0,
    }
}

/// Prints why there is no answer, and that there is none. Answers the status.
fn print_unknown<R: Runtime>(rt: &R, quiet: bool, lines: &[u8]) -> u8 {
    tell(rt, quiet, lines);
    print_answer(rt, UNKNOWN, 0)
}

/// Decides the formula that the words name. The error is want of memory.
fn solve<R: Runtime + AllocGlobal>(
    rt: &R,
    solving: &Solving<'_>,
    is_minisat: bool,
) -> Result<Solved, AllocError> {
    let is_packed = Cell::new(false);
    let disk = &mut SolverMachine {
        machine: Machine { rt },
        is_packed: &is_packed,
    };
    let limits = read_limits(true);
    let input = solving.input.unwrap_or("-");
    let limit = solving.limit;
    match solving.second {
        Some(result) if is_minisat => {
            let files = MinisatFiles {
                input,
                result,
                limit,
            };
            solve_as_minisat(disk, limits, &files, &mut Unobserved)
        }
        second => {
            let proof = match second {
                Some(path) => Some(Target {
                    path,
                    binary: false,
                }),
                None => None,
            };
            let files = SolverFiles {
                input,
                proof,
                limit,
                witness: solving.witness,
            };
            solve_files(disk, limits, &files, &mut Unobserved)
        }
    }
}

/// Runs as a solver by the words that were read, and answers the exit status.
fn run<R: Runtime + AllocGlobal>(rt: &R, solving: &Solving<'_>, is_minisat: bool) -> u8 {
    let quiet = solving.quiet;
    if solving.helps {
        return print_unknown(rt, false, HELP);
    }
    if solving.second == Some("-") {
        return print_unknown(rt, quiet, NO_FILE);
    }
    match solve(rt, solving, is_minisat) {
        Ok(Solved { told, report }) => {
            tell(rt, quiet, &told);
            print_answer(rt, &report.stdout, report.status)
        }
        Err(_) => print_unknown(rt, quiet, b"c no memory\n"),
    }
}

/// Whether the environment has words for the script.
fn has_words_in_environment<R: Runtime + AllocGlobal>(rt: &R) -> bool {
    match env::var(rt, "SATCLUSTER_WORDS") {
        Ok(words) => !words.as_str().is_empty(),
        Err(_) => false,
    }
}

/// Runs as a solver that was called with these words, and answers the exit status.
pub(crate) fn solver<R: Runtime + AllocGlobal>(rt: &R, call: SolverCall<'_>) -> u8 {
    let mut told = Vec::new(rt.alloc());
    let solving = match read_words(&mut told, call.words) {
        Ok(solving) => solving,
        Err(_) => return print_unknown(rt, false, b"c no memory\n"),
    };
    if has_words_in_environment(rt) {
        tell(rt, solving.quiet, ENVIRONMENT);
    }
    tell(rt, solving.quiet, &told);
    run(rt, &solving, call.is_minisat)
}
