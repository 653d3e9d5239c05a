//! The hints of a lemma's line, found without parsing the line. They decide which lemmas are kept, and nothing else: the shorter text is
//! checked.

use memchr::memchr;

/// Returns the bytes after the 0 that ends the literals of a lemma's line; `None` if there is no such 0 with a space on both sides.
fn behind_literals(line: &[u8]) -> Option<&[u8]> {
    for i in 2..line.len() {
        if line[i] == b' ' && line[i - 1] == b'0' && line[i - 2] == b' ' {
            return Some(&line[i..]);
        }
    }
    None
}

/// Returns the bytes of a lemma's line that have its hints, with spaces between them and the last 0; `None` if the lemma has groups.
pub(crate) fn plain_hints(line: &[u8]) -> Option<&[u8]> {
    let hints = behind_literals(line)?;
    if memchr(b'-', hints).is_some() {
        return None;
    }
    Some(hints)
}
