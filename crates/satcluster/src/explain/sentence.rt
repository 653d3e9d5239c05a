//! Tells sentences in which a mark, such as `FILE`, is replaced by the name of a file or by a word.

use explanations::{Told, in_command, shown};
use std::fmt;
use std::fmt::{Display, Formatter};
use std::rt::Runtime;

/// A text in which a name replaces each mark, of which there are two at most.
#[derive(Drop)]
struct Filled<'a> {
    text: &'a str,
    /// The mark, such as `FILE` or `WORD`.
    mark: &'static str,
    /// What replaces the mark.
    name: &'a str,
}

impl Display for Filled<'_> {
    fn fmt<W: fmt::Write>(&self, f: &mut Formatter<W>) -> fmt::Result {
        let Some((front, rest)) = self.text.split_once(self.mark) else {
            return f.write_str(self.text);
        };
        f.write_str(front)?;
        f.write_str(self.name)?;
        // No text has more than two.
        let Some((middle, end)) = rest.split_once(self.mark) else {
            return f.write_str(rest);
        };
        f.write_str(middle)?;
        f.write_str(self.name)?;
        f.write_str(end)
    }
}

/// Prints a sentence on standard error, in which `name` replaces each `mark`, such as `FILE`. A
/// write that fails is ignored.
pub(crate) fn tell<R: Runtime>(rt: &R, text: &str, mark: &'static str, name: &str) {
    let filled = Filled { text, mark, name };
    let _ = eprintln!(rt; "c {filled}");
}

/// Prints what a fault or a refusal means and what to do, with the path of its file put in.
pub(crate) fn tell_of<R: Runtime>(rt: &R, told: Told, path: &str) {
    tell(rt, told.sentence, "FILE", name_of(path));
    tell(rt, told.remedy, "FILE", in_command(path));
}

/// Answers how a path is named in a sentence.
pub(crate) fn name_of(path: &str) -> &str {
    match path {
        "-" => "standard input",
        "" => "the file",
        _ => shown(path, "the file"),
    }
}
