//! Tells what a fault of a file means, where it is, and what to do.

use crate::explain::paths::{Paths, faulty};
use crate::explain::sentence::{name_of, tell, tell_of};
use crate::explain::view::{View, view_of};
use explanations::{Fault, File, Subject, Unit, explain_fault, in_command, look_of, shown};
use std::alloc::Global;
use std::rt::Runtime;
use std::str::from_utf8;

/// How many bytes of a line are shown at most.
const WIDTH: usize = 60;

/// Prints the line of the file that has the fault, cut after 60 bytes, if it is not empty and has
/// only printable ASCII characters.
fn tell_line<R: Runtime>(rt: &R, line: &[u8]) {
    let is_cut = line.len() > WIDTH;
    let text = &line[..WIDTH.min(line.len())];
    let is_text = text.iter().all(|byte| *byte >= b' ' && *byte < 127);
    if !is_text || text.is_empty() {
        return;
    }
    let (Ok(text), false) = (from_utf8(text), is_cut) else {
        if let Ok(text) = from_utf8(text) {
            let _ = eprintln!(rt; "c The line begins: {text}");
        }
        return;
    };
    let _ = eprintln!(rt; "c The line is: {text}");
}

/// Whether a token is a decimal number without a leading zero; it may have a minus sign.
fn is_number(token: &str) -> bool {
    let digits = match token.strip_prefix('-') {
        Some(digits) => digits,
        None => token,
    };
    let are_digits = digits.bytes().all(|byte| byte.is_ascii_digit());
    are_digits && (token == "0" || !(digits.is_empty() || digits.starts_with('0')))
}

/// Prints the first token of a line that is no number, if there is one. The letter `a` at the
/// line's beginning, which begins a cube, is passed over.
fn tell_token<R: Runtime>(rt: &R, line: &[u8]) {
    let Ok(text) = from_utf8(line) else {
        return;
    };
    let text = match text.strip_prefix("a ") {
        Some(rest) => rest,
        None => text,
    };
    for token in text.split_ascii_whitespace() {
        if !is_number(token) {
            let token = shown(token, "one with bytes of no text");
            let _ = eprintln!(rt; "c The token is: {token}");
            return;
        }
    }
}

/// Whether a fault of a file of this kind is that a token is no number.
fn is_of_token(subject: Subject, found: &Fault) -> bool {
    match subject {
        Subject::Input | Subject::Cubes | Subject::Events => found.number == 3,
        _ => false,
    }
}

/// Answers as what kind a file is read: a file that is joined, as a solver's answer if its first
/// byte begins an answer's line; any other, as `subject`.
fn joined_subject(file: File, subject: Subject, head: &[u8]) -> Subject {
    match (file, head.first()) {
        (File::Joined(_), Some(b'c' | b's' | b'v')) => Subject::Answer,
        _ => subject,
    }
}

/// Whether a fault may come of a file of another kind: its number is at most 3, or it is at one of the first two lines or steps.
fn is_early(found: &Fault) -> bool {
    found.number <= 3 || found.at <= 2
}

/// Answers the line from which the kind of the file is guessed; none if the fault has nothing to do
/// with the file's form.
fn telling_line<'a>(view: &'a View, found: &Fault) -> &'a [u8] {
    match found.unit {
        Unit::Line if found.number > 2 => &[],
        _ => view.line.as_slice(),
    }
}

/// Prints what a fault means, where it is, and what to do. If the command has no such file, or the
/// file no such fault, nothing is printed.
pub(crate) fn tell_fault<R: Runtime + AllocGlobal>(rt: &R, paths: &Paths, found: &Fault) {
    let Some((path, subject)) = faulty(paths, found.file) else {
        return;
    };
    let view = view_of(rt, path, found);
    let subject = joined_subject(found.file, subject, view.head.as_slice());
    let Some(told) = explain_fault(subject, found.number) else {
        return;
    };
    tell_place(rt, path, found, told.sentence);
    if let Unit::Line = found.unit {
        tell_line(rt, view.line.as_slice());
        if is_of_token(subject, found) {
            tell_token(rt, view.line.as_slice());
        }
    }
    let look = look_of(subject, view.head.as_slice(), telling_line(&view, found));
    match look {
        Some(look) if is_early(found) => tell_of(rt, look.told(), path),
        _ => tell(rt, told.remedy, "FILE", in_command(path)),
    }
}

/// Prints in which line or step of a file a fault is, and what it means.
fn tell_place<R: Runtime>(rt: &R, path: &str, found: &Fault, sentence: &str) {
    let name = name_of(path);
    let at = found.at;
    let _ = match found.unit {
        Unit::Line => eprintln!(rt; "c {name}, line {at}: {sentence}"),
        Unit::Step => eprintln!(rt; "c {name}, step {at}: {sentence}"),
    };
}
