//! Makes a call by its name, again if memory was wanting, and prints its answer.
//!
//! Run with one allocation refused, a call answers `no memory`, and then what it answers with ample memory.

mod call;
mod checks;
mod fragment_join;
mod fragment_trim;
mod machines;
mod run_reports;
mod searches;

use call::{Answer, Tried};
use std::alloc::Global;
use std::io;
use std::io::Write;
use std::rt::Runtime;

/// Makes the call of this name; `None` if memory was wanting before it, or there is no such call.
fn try_call(alloc: Global, name: &str) -> Option<Tried> {
    match name {
        "search_four" => searches::four(alloc),
        "search_eight" => searches::eight(alloc),
        "search_under_a_cube" => searches::under_a_cube(alloc),
        "check" => checks::checked(alloc),
        "fragment" => checks::closed(alloc),
        "trim" => fragment_trim::trimmed(alloc),
        "join_of_lines" => fragment_join::joined_lines(alloc),
        "join_with_deletions" => fragment_join::joined_deletions(alloc),
        "last_part" => machines::last_part(alloc),
        "last_piece" => machines::last_piece(alloc),
        "extended_proof" => machines::extended_proof(alloc),
        "extended_assignment" => machines::extended_assignment(alloc),
        "extended_join" => machines::extended_join(alloc),
        "run_of_units" => run_reports::units(alloc),
        "run_of_four" => run_reports::four(alloc),
        _ => None,
    }
}

/// Prints the answer of a call, and first that memory was wanting, if it was made twice.
fn print<W: Write>(out: &mut W, tried: &Tried) -> io::Result<()> {
    if tried.was_refused {
        out.write_all(b"no memory, then\n")?;
    }
    match &tried.answer {
        Answer::NoMemory => out.write_all(b"NO MEMORY\n"),
        Answer::Changed => out.write_all(b"CHANGED\n"),
        Answer::Said(text) => out.write_all(text.as_bytes()),
        Answer::Made(text) => out.write_all(text.as_slice()),
    }
}

/// Makes the call of this name, and prints its outcome.
pub(crate) fn make<R: Runtime + AllocGlobal>(rt: &R, name: &str) -> io::Result<()> {
    let mut out = io::writer(rt);
    match try_call(rt.alloc(), name) {
        Some(tried) => print(&mut out, &tried)?,
        None => out.write_all(b"no memory before\n")?,
    }
    out.flush()
}
