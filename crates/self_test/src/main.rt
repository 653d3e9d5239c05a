//! Self tests by name, one word each: a file `NAME.cnf` is solved, `drawn_runs` plays random runs of `serve`, and any other word names a
//! call, which is made again if memory was wanting.
//!
//! They are one program, since the crates below a program take most of the time of its proof.
#![tactic(auto)]

mod calls;
mod examples;
mod formulas;
mod random_runs;

use std::process::ExitCode;
use std::rt::Runtime;
use std::{env, io};

/// Does the test that a word names: random runs, the formula of a file, or a call.
fn try_one<R: Runtime + AllocGlobal>(rt: &R, word: &str) -> io::Result<()> {
    if word == "drawn_runs" {
        return random_runs::play_formulas(rt);
    }
    if word.ends_with(".cnf") {
        return examples::solve(rt, word);
    }
    calls::make(rt, word)
}

/// Does what each word of the command line says, in turn.
fn run<R: Runtime + AllocGlobal>(rt: &R) -> io::Result<()> {
    for word in env::args(rt)?.skip(1) {
        try_one(rt, word.as_str())?;
    }
    Ok(())
}

/// Runs the tests; status 1 if an output cannot be written.
fn main(rt: HostRuntime) -> ExitCode {
    match run(&rt) {
        Ok(()) => ExitCode::SUCCESS,
        Err(_) => ExitCode::from(1),
    }
}
