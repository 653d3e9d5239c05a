//! The first bytes and one line of a file, which is opened once more.

use crate::files::{no_memory, open};
use crate::standard_input::is_dash;
use explanations::{Fault, Unit};
use node_main::Refusal;
use std::alloc::{AllocError, Global};
use std::fs;
use std::rt::Runtime;

/// How many bytes are kept at most, of the first ones and of the line.
const HEAD: usize = 4_096;

/// What was seen of a file: its first bytes, and the beginning of one line.
pub(crate) struct View {
    /// The first bytes, at most 4,096.
    pub(crate) head: Vec<u8>,
    /// The bytes of the line, at most 4,096, without its LF.
    pub(crate) line: Vec<u8>,
    /// How many lines are still to end before the line begins.
    before: u64,
}

impl Drop for View {
    fn drop(self) {
        let View {
            head: _,
            line: _,
            before: _,
        } = self;
    }
}

impl View {
    /// A view of a file that has seen no byte, in which the line of this number (from 1) is looked for.
    fn new(alloc: Global, number: u64) -> View {
        View {
            head: Vec::new(alloc),
            line: Vec::new(alloc),
            before: number.saturating_sub(1),
        }
    }

    /// Keeps the first bytes of the file, which are those of its first piece.
    fn keep_head(&mut self, piece: &[u8]) -> Result<(), AllocError> {
        let len = piece.len().min(HEAD);
        self.head.extend_from_slice(&piece[..len])
    }

    /// Takes the next piece of the file, and answers whether the line has ended.
    fn take_piece(&mut self, piece: &[u8]) -> Result<bool, AllocError> {
        for byte in piece {
            if *byte == b'\n' {
                if self.before == 0 {
                    return Ok(true);
                }
                self.before -= 1;
            } else if self.before == 0 && self.line.len() < HEAD {
                self.line.push(*byte)?;
            }
        }
        Ok(false)
    }
}

/// Whether a path leads to a regular file, which can be read again.
fn is_plain<R: Runtime>(rt: &R, path: &str) -> bool {
    if is_dash(path) {
        return false;
    }
    match fs::metadata(rt, path) {
        Ok(metadata) => metadata.is_file(),
        Err(_) => false,
    }
}

/// Reads a file up to the end of the line that is looked for; if the fault is that of a step, its first piece alone.
fn look_into<R: Runtime + AllocGlobal>(
    rt: &R,
    path: &str,
    found: &Fault,
    view: &mut View,
) -> Result<(), Refusal> {
    let mut pieces = open(rt, path, Refusal::Input)?;
    let first = pieces.next()?;
    view.keep_head(first).map_err(no_memory)?;
    if view.take_piece(first).map_err(no_memory)? {
        return Ok(());
    }
    if let Unit::Step = found.unit {
        return Ok(());
    }
    for _ in 0..u64::MAX {
        let piece = pieces.next()?;
        if piece.is_empty() || view.take_piece(piece).map_err(no_memory)? {
            return Ok(());
        }
    }
    Ok(())
}

/// Answers the view of a file that has this fault; an empty one if the file cannot be read again.
pub(crate) fn view_of<R: Runtime + AllocGlobal>(rt: &R, path: &str, found: &Fault) -> View {
    let number = match found.unit {
        Unit::Line => found.at,
        Unit::Step => 1,
    };
    let mut view = View::new(rt.alloc(), number);
    if is_plain(rt, path) {
        let _ = look_into(rt, path, found, &mut view);
    }
    view
}
