//! The known word that is nearest to one that is refused.

use std::alloc::{AllocError, Global};
use strsim::osa_distance;

/// The most bytes of a word that is compared with the known ones. No known one is as long.
const LONGEST: usize = 40;

/// How many bytes of a word there are for each edit by which it may differ from what is meant.
const BYTES_PER_EDIT: usize = 3;

/// The commands that the program's help lists, from the line `Commands:` to the next empty line.
pub(crate) fn known_commands(alloc: Global, help: &str) -> Result<Vec<&str>, AllocError> {
    let mut known = Vec::new(alloc);
    let mut are_listed = false;
    for line in help.lines() {
        if are_listed && let Some(name) = line.split_ascii_whitespace().next() {
            known.push(name)?;
        } else {
            are_listed = line == "Commands:";
        }
    }
    Ok(known)
}

/// The words that begin with `--` and are listed in a command's help, and those that every command
/// has.
pub(crate) fn known_words(alloc: Global, help: &str) -> Result<Vec<&str>, AllocError> {
    let mut known = Vec::new(alloc);
    known.push("--explain")?;
    known.push("--no-explain")?;
    for line in help.lines() {
        if !line.trim_start().starts_with('-') {
            continue;
        }
        for word in line.split_ascii_whitespace() {
            if word.starts_with("--") {
                known.push(word)?;
            }
        }
    }
    Ok(known)
}

/// The known word of the fewest edits (letters put in, taken out, changed, or swapped with the next
/// one), and of several the first; None if even that one has more than one edit for three bytes. It
/// errs if memory runs out.
pub(crate) fn nearest<'a>(
    alloc: Global,
    word: &str,
    known: &[&'a str],
) -> Result<Option<&'a str>, AllocError> {
    if word.len() > LONGEST {
        return Ok(None);
    }
    let mut fewest = word.len() / BYTES_PER_EDIT + 1;
    let mut found = None;
    for other in known {
        let edits = osa_distance(alloc, word, other)?;
        if edits < fewest {
            fewest = edits;
            found = Some(*other);
        }
    }
    Ok(found)
}
