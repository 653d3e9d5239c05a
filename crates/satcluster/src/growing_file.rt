//! Files that grow in place: the proof of a session, and the log of a block of leaves. Other files are whole or not there.

use crate::drafts::not_written;
use crate::files::no_memory;
use crate::proof_file::{is_printed_to, is_same_file, place_of};
use commands::print;
use leaves::GrowingLog;
use node_main::Refusal;
use packed_text::PackedText;
use std::alloc::Global;
use std::fs::{File, OpenFile};
use std::io;
use std::io::Write;
use std::rt::Runtime;

/// How many bytes of a packed text are unpacked and written at a time.
const PIECE: usize = 65_536;

/// Whether a path leads to standard output.
fn is_printed<R: Runtime + AllocGlobal>(rt: &R, path: &str) -> Result<bool, Refusal> {
    match place_of(rt, path).map_err(not_written)? {
        Some(place) => Ok(is_printed_to(rt, &place)),
        None => Ok(false),
    }
}

/// Creates or truncates the file at a path. It errs if the path leads to a file that is read, `input` or `other`, or to standard output, or
/// if the file cannot be created.
pub(crate) fn create_growing<R: Runtime + AllocGlobal>(
    rt: &R,
    path: &str,
    input: &str,
    other: Option<&str>,
) -> Result<R::File, Refusal> {
    let was_read = is_same_file(rt, path, input)
        || match other {
            Some(other) => is_same_file(rt, path, other),
            None => false,
        };
    if was_read || is_printed(rt, path)? {
        return Err(Refusal::Writing);
    }
    File::create(rt, path).map_err(not_written)
}

/// The file of a log that grows, and standard output, to which its leaves are told.
#[derive(Drop)]
pub(crate) struct GrowingFile<'a, R, F> {
    pub(crate) rt: &'a R,
    /// The file, which begins empty.
    pub(crate) file: F,
    /// How many bytes of the log were written.
    pub(crate) written: usize,
    /// How many bytes of what is told were printed.
    pub(crate) told: usize,
}

/// Unpacks what a text has behind its first `from` bytes, `PIECE` bytes at a time, and writes it. It errs if memory runs out or a write
/// fails.
fn write_behind<F: Write>(
    alloc: Global,
    file: &mut F,
    text: &PackedText,
    from: usize,
) -> Result<(), Refusal> {
    let left = text.len().saturating_sub(from);
    for i in 0..left / PIECE + 1 {
        let place = from.saturating_add(PIECE * i);
        let piece = text.read(alloc, place, PIECE).map_err(no_memory)?;
        file.write_all(piece.as_slice()).map_err(not_written)?;
    }
    Ok(())
}

/// Prints what a text has behind its first `from` bytes, and flushes. It errs if not all was printed.
fn print_behind<R: Runtime>(rt: &R, text: &[u8], from: usize) -> Result<(), Refusal> {
    if from >= text.len() {
        return Ok(());
    }
    print(&mut io::writer(rt), &text[from..]).map_err(not_written)
}

impl<R: Runtime + AllocGlobal, F: Write> GrowingFile<'_, R, F> {
    /// Appends to the file what it does not have of the log, and then prints what was not printed of `told`.
    fn append(&mut self, log: &PackedText, told: &[u8]) -> Result<(), Refusal> {
        write_behind(self.rt.alloc(), &mut self.file, log, self.written)?;
        self.written = log.len();
        print_behind(self.rt, told, self.told)?;
        self.told = told.len();
        Ok(())
    }
}

impl<R: Runtime + AllocGlobal, F: Write> GrowingLog for GrowingFile<'_, R, F> {
    /// Appends to the file what it does not have of the log, and then prints what was not printed of `told`. The file has no buffer: what is
    /// written is there if the program is killed.
    fn keep_leaf(&mut self, log: &PackedText, told: &[u8]) -> Result<(), Refusal> {
        match self.append(log, told) {
            Ok(()) => Ok(()),
            Err(Refusal::NoMemory) => Err(Refusal::NoMemory),
            Err(_) => Err(Refusal::Writing),
        }
    }
}
