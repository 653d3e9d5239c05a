//! The files of a solver: those of the machine. It is noted whether the formula is packed, which comes by a pipe and so is read once.

use crate::drafts::Draft;
use crate::files::{Machine, open};
use commands::{Disk, Drafts, Pieces, SolverDisk, There, Way};
use explanations::packing_of;
use node_main::Refusal;
use std::alloc::Global;
use std::cell::Cell;
use std::io::Read;
use std::rt::Runtime;
use std::{fs, io};

/// A file that is read, of which is noted whether it is packed.
#[derive(Drop)]
pub(crate) struct Noted<'a, F> {
    file: F,
    is_begun: bool,
    is_packed: &'a Cell<bool>,
}

impl<F: Read> Read for Noted<'_, F> {
    /// Reads bytes of the file, and notes whether the first ones are those of a packed file.
    fn read(&mut self, bytes: &mut [u8]) -> io::Result<usize> {
        let len = self.file.read(bytes)?;
        if !self.is_begun {
            self.is_begun = true;
            self.is_packed.set(packing_of(&bytes[..len]).is_some());
        }
        Ok(len)
    }
}

/// The files of the machine, for a solver.
#[derive(Drop)]
pub(crate) struct SolverMachine<'a, R> {
    pub(crate) machine: Machine<'a, R>,
    /// Whether the file that was read last is packed.
    pub(crate) is_packed: &'a Cell<bool>,
}

impl<'a, R: Runtime + AllocGlobal> Disk for SolverMachine<'a, R> {
    type Source = Noted<'a, R::File>;

    /// The allocator of the runtime.
    fn alloc(&self) -> Global {
        self.machine.alloc()
    }

    /// Opens the file at a path.
    fn open(&self, path: &str, refusal: Refusal) -> Result<Pieces<Noted<'a, R::File>>, Refusal> {
        let (file, has_end) = self.machine.opened(path, refusal)?;
        let source = Noted {
            file,
            is_begun: false,
            is_packed: self.is_packed,
        };
        match Pieces::of(self.alloc(), source, has_end, refusal) {
            Ok(pieces) => Ok(pieces),
            Err(_) => Err(Refusal::NoMemory),
        }
    }
}

impl<R: Runtime + AllocGlobal> Drafts for SolverMachine<'_, R> {
    type Draft = Draft<R::File>;

    /// Whether two paths lead to the same file.
    fn is_same(&self, path: &str, other: &str) -> bool {
        self.machine.is_same(path, other)
    }

    /// Tests whether a path can be written.
    fn test(&self, path: &str) -> Result<(), Refusal> {
        self.machine.test(path)
    }

    /// Creates a temporary file beside the path, or opens what is there, if it is no regular file.
    fn begin(&self, path: &str, way: Way) -> Result<Option<Draft<R::File>>, Refusal> {
        self.machine.begin(path, way)
    }

    /// Writes bytes at the end of the temporary file, or of the file itself.
    fn append(&self, draft: &mut Draft<R::File>, bytes: &[u8]) -> Result<(), Refusal> {
        self.machine.append(draft, bytes)
    }

    /// Whether a path leads to the temporary file, or to the file that it will replace.
    fn leads_to(&self, draft: &Draft<R::File>, path: &str) -> bool {
        self.machine.leads_to(draft, path)
    }

    /// Renames the temporary file to its path; a file that was written in place is there already.
    fn keep(&mut self, draft: Draft<R::File>) -> Result<bool, Refusal> {
        self.machine.keep(draft)
    }

    /// Removes the temporary file; a file that was written in place stays.
    fn remove(&self, draft: Draft<R::File>) {
        self.machine.remove(draft);
    }
}

/// What a file is by its first bytes.
fn kind_of(head: &[u8]) -> There {
    let is_result = head.starts_with(b"SAT\n")
        || head.starts_with(b"UNSAT\n")
        || head.starts_with(b"INDET\n");
    if head.is_empty() || is_result {
        return There::Result;
    }
    for line in head.split(|byte| *byte == b'\n') {
        if !line.is_empty() && !line.starts_with(b"c") {
            return if line.starts_with(b"p cnf") {
                There::Formula
            } else {
                There::Other
            };
        }
    }
    There::Other
}

/// What a regular file is that can be opened.
fn looked_into<R: Runtime + AllocGlobal>(rt: &R, path: &str) -> Result<There, Refusal> {
    let mut pieces = open(rt, path, Refusal::Input)?;
    Ok(kind_of(pieces.next()?))
}

impl<R: Runtime + AllocGlobal> SolverDisk for SolverMachine<'_, R> {
    /// Whether the file that was read last is packed.
    fn is_packed(&self) -> bool {
        self.is_packed.get()
    }

    /// What is at a path. What is no regular file is not opened, since that might wait for ever.
    fn there(&self, path: &str) -> There {
        match fs::metadata(self.machine.rt, path) {
            Ok(found) if found.is_file() => {
                looked_into(self.machine.rt, path).unwrap_or(There::Other)
            }
            _ => There::Result,
        }
    }
}
