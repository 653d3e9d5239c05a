//! Tells which word of a command line is refused.
//!
//! The parser is asked: the first words with `--help` after them are answered by help if none of them is refused. So no rule of the
//! words stands twice. The help also has the known words, of which the nearest one is told.

use crate::explain::nearest::{known_commands, known_words, nearest};
use crate::explain::sentence::tell;
use crate::standard_input::is_sound;
use explanations::{Reason, shown};
use node_main::{Request, UsageFault, command};
use std::alloc::AllocError;
use std::rt::Runtime;

/// Answers the help that the parser gives to the first `count` words and `--help`; `None` if one of them is refused. It errs if memory runs
/// out.
fn help_of<R: Runtime + AllocGlobal>(
    rt: &R,
    words: &[&str],
    count: usize,
) -> Result<Option<String>, AllocError> {
    let mut front = Vec::with_capacity(rt.alloc(), count.saturating_add(1))?;
    for word in words.iter().take(count) {
        front.push(*word)?;
    }
    front.push("--help")?;
    match command(rt.alloc(), front.as_slice()) {
        Err(UsageFault::Help(text)) => Ok(Some(text)),
        Err(UsageFault::NoMemory) => Err(AllocError),
        _ => Ok(None),
    }
}

/// Whether the parser refuses none of the first `count` words, by themselves or with the next one,
/// which may be the value of the last.
fn are_taken<R: Runtime + AllocGlobal>(
    rt: &R,
    words: &[&str],
    count: usize,
) -> Result<bool, AllocError> {
    if help_of(rt, words, count)?.is_some() {
        return Ok(true);
    }
    Ok(count < words.len() && help_of(rt, words, count + 1)?.is_some())
}

/// Answers how many words the parser takes before one is refused. It is found by bisection, since
/// there may be many words, and each question reads them all.
fn taken<R: Runtime + AllocGlobal>(rt: &R, words: &[&str]) -> Result<usize, AllocError> {
    let mut low = 0usize;
    let mut high = words.len();
    for _ in 0..64 {
        if low >= high {
            break;
        }
        let middle = high - (high - low) / 2;
        if are_taken(rt, words, middle)? {
            low = middle;
        } else {
            high = middle - 1;
        }
    }
    Ok(low)
}

/// Answers the line of a help that begins with this word, after spaces; `None` if there is none.
fn line_of<'a>(help: &'a str, word: &str) -> Option<&'a str> {
    for line in help.lines() {
        let text = line.trim_start();
        if let Some((first, _)) = text.split_once(' ')
            && first == word
        {
            return Some(text);
        }
    }
    None
}

/// Answers why a word is refused: the program's name has the index 0, and the command 1. `line` is the line on the word in the command's
/// help.
fn reason_of(place: usize, word: &str, line: Option<&str>) -> Reason {
    if place == 1 {
        Reason::OtherCommand
    } else if word == "--" {
        Reason::NotTogether
    } else if word.len() < 2 || !word.starts_with('-') {
        Reason::OtherName
    } else if line.is_some() {
        Reason::WrongWord
    } else {
        Reason::OtherWord
    }
}

/// Lines of a help that show what is right.
#[derive(Clone, Copy)]
struct Right<'a> {
    /// The line on the word that is refused.
    word: Option<&'a str>,
    /// The line that shows how the command is called.
    usage: Option<&'a str>,
}

/// No line of a help.
const NOTHING: Right<'static> = Right {
    word: None,
    usage: None,
};

/// Prints a line of a help text, if there is one.
fn tell_line<R: Runtime>(rt: &R, line: Option<&str>) {
    if let Some(line) = line {
        tell(rt, line, "WORD", "WORD");
    }
}

/// The known word that is nearest to a refused one, by the help of the command, or of the program
/// for another command; None if none is near. It errs if memory runs out.
fn meant<'a, R: Runtime + AllocGlobal>(
    rt: &R,
    reason: Reason,
    word: &str,
    help: &'a str,
) -> Result<Option<&'a str>, AllocError> {
    let known = match reason {
        Reason::OtherCommand => known_commands(rt.alloc(), help)?,
        Reason::OtherWord => known_words(rt.alloc(), help)?,
        _ => return Ok(None),
    };
    nearest(rt.alloc(), word, known.as_slice())
}

/// Tells which word was perhaps meant, if one is near.
fn tell_meant<R: Runtime>(rt: &R, meant: Option<&str>) {
    if let Some(word) = meant {
        tell(rt, "Do you mean WORD?", "WORD", word);
    }
}

/// Tells why words are refused, the lines of a help that show what is right, and what to do.
fn tell_reason<R: Runtime>(rt: &R, reason: Reason, word: &str, right: Right<'_>) {
    let told = reason.told();
    tell(rt, told.sentence, "WORD", shown(word, "that stands there"));
    tell_line(rt, right.word);
    tell_line(rt, right.usage);
    tell(rt, told.remedy, "WORD", "WORD");
}

/// Answers why words are refused although none is refused by itself: no command is named, or they
/// do not go together.
fn reason_of_none(words: &[&str]) -> Reason {
    if words.len() < 2 {
        Reason::NoCommand
    } else {
        Reason::NotTogether
    }
}

/// Tells which word is refused, or that none is by itself. It errs if memory runs out.
fn tell_refused<R: Runtime + AllocGlobal>(rt: &R, words: &[&str]) -> Result<(), AllocError> {
    let place = taken(rt, words)?;
    let front = if place == 1 { 1 } else { 2 };
    let help = help_of(rt, words, front)?;
    let help = match &help {
        Some(text) => text.as_str(),
        None => "",
    };
    let usage = line_of(help, "Usage:");
    let Some(word) = words.get(place) else {
        let right = Right { word: None, usage };
        tell_reason(rt, reason_of_none(words), "", right);
        return Ok(());
    };
    let line = line_of(help, word);
    let right = Right { word: line, usage };
    let reason = reason_of(place, word, line);
    let meant = meant(rt, reason, word, help)?;
    tell_reason(rt, reason, word, right);
    tell_meant(rt, meant);
    Ok(())
}

/// Prints the help of the program on standard error: for a call without words. It errs if memory runs out.
fn tell_help<R: Runtime + AllocGlobal>(rt: &R, words: &[&str]) -> Result<(), AllocError> {
    if let Some(text) = help_of(rt, words, 1)? {
        let _ = eprint!(rt; "{text}");
    }
    Ok(())
}

/// Why the words of a request are refused though each is right by itself.
fn together(request: &Request<'_>) -> Reason {
    match request {
        Request::Share { .. } => Reason::NotTogether,
        _ => Reason::LeafOrLidrup,
    }
}

/// Tells why words are refused: one of them by itself, or what they name together. For a call
/// without words, somebody at a terminal gets the help.
pub(crate) fn explain_words<R: Runtime + AllocGlobal>(rt: &R, words: &[&str], on_terminal: bool) {
    if words.len() < 2 && on_terminal {
        let _ = tell_help(rt, words);
        return;
    }
    match command(rt.alloc(), words) {
        Ok(request) => {
            let reason = if is_sound(&request) {
                together(&request)
            } else {
                Reason::StandardInput
            };
            tell_reason(rt, reason, "", NOTHING);
        }
        Err(_) => {
            let _ = tell_refused(rt, words);
        }
    }
}
