//! Tells what a report means, in words, on standard error, once the report is printed: by `--explain`, or if standard error is a terminal.
//!
//! The explanation is made of the report's text, of the words of the command line, and of the bytes of a file that is opened anew. So it
//! changes neither the report nor the status. If such a file cannot be opened, less is explained.

mod faults;
mod nearest;
mod paths;
mod reasons;
mod sentence;
mod view;
mod words;

use crate::explain::faults::tell_fault;
use crate::explain::paths::{Paths, joined_name, paths_of};
use crate::explain::reasons::{tell_unread, tell_unwritten};
use crate::explain::sentence::tell_of;
use crate::explain::words::explain_words;
use explanations::{Fault, Other, Reason, is_of_clause, unread_number};
use node_main::{Report, Request, UsageFault, command};
use std::alloc::Global;
use std::rt::Runtime;
use std::str::from_utf8;

/// How many lines of a report are explained at most.
const MOST: u32 = 16;

/// Tells what a line of a report that is no fault with a number means, by why its file cannot be read or written, or by its sentence.
fn explain_other<R: Runtime>(rt: &R, paths: &Paths, other: Other) {
    match other {
        Other::InputUnread => tell_unread(rt, Some(paths.input)),
        Other::CubesUnread => tell_unread(rt, paths.cubes),
        Other::ProofUnread | Other::AnswerUnread => tell_unread(rt, paths.read),
        Other::ProofUnwritten => tell_unwritten(rt, paths),
        _ => tell_of(rt, other.told(), paths.input),
    }
}

/// Tells what a line of a report means. Answers false if there is nothing to tell.
fn explain_line<R: Runtime + AllocGlobal>(rt: &R, paths: &Paths, line: &str) -> bool {
    if let Some(found) = Fault::of(line) {
        tell_fault(rt, paths, &found);
    } else if let Some(other) = Other::of(line) {
        explain_other(rt, paths, other);
    } else if let Some(number) = unread_number(line) {
        tell_unread(rt, Some(joined_name(paths, number)));
    } else if is_of_clause(line) {
        tell_of(rt, Reason::NoLiteral.told(), paths.input);
    } else {
        return false;
    }
    true
}

/// Tells what the first lines of a report mean, at most 16, up to one that begins neither with `c` nor with `s`.
fn explain_lines<R: Runtime + AllocGlobal>(rt: &R, paths: &Paths, text: &str) {
    let mut count = 0;
    for line in text.lines() {
        if count >= MOST || !(line.starts_with('c') || line.starts_with('s')) {
            return;
        }
        if explain_line(rt, paths, line) {
            count += 1;
        }
    }
}

/// Tells what the text of a report of this request means.
fn explain_request<R: Runtime + AllocGlobal>(rt: &R, request: &Request<'_>, text: &str) {
    let paths = paths_of(request);
    explain_lines(rt, &paths, text);
}

/// Tells what the text of a report means, by the request that the words make. If they make none, only help was printed, which is not
/// explained, or want of memory.
fn explain_text<R: Runtime + AllocGlobal>(rt: &R, words: &[&str], text: &str) {
    match command(rt.alloc(), words) {
        Ok(request) => explain_request(rt, &request, text),
        Err(UsageFault::NoMemory) => tell_of(rt, Other::NoMemory.told(), ""),
        Err(UsageFault::Usage) => {}
        Err(UsageFault::Help(_)) => {}
    }
}

/// Tells what the printed bytes mean: for `c usage`, which word is refused; else what the lines mean, if the bytes are UTF-8.
fn explain_bytes<R: Runtime + AllocGlobal>(
    rt: &R,
    words: &[&str],
    bytes: &[u8],
    on_terminal: bool,
) {
    if bytes == b"c usage\n".as_slice() {
        explain_words(rt, words, on_terminal);
    } else if let Ok(text) = from_utf8(bytes) {
        explain_text(rt, words, text);
    }
}

/// Prints what a report means, or the line of a run that has no report. `on_terminal` says whether
/// standard error is a terminal.
pub(crate) fn explain<R: Runtime + AllocGlobal>(
    rt: &R,
    words: &[&str],
    found: &Result<Report, &'static str>,
    on_terminal: bool,
) {
    match found {
        Ok(report) => explain_bytes(rt, words, report.stdout.as_slice(), on_terminal),
        Err(line) => explain_bytes(rt, words, line.as_bytes(), on_terminal),
    }
}
