//! The files that a command line names: `commands::Disk` over the operating system, and readers of whole files.

ghost use Rattle.std.specs.Prelude.{IfErr};
ghost use Rattle.commands.specs.Refusals.{IsRefusedAs};

use crate::standard_input::is_dash;
use commands::{Disk, Pieces, read_bytes, refused};
use dimacs::{DimacsFault, Formula, Limits};
use node_main::Refusal;
use std::alloc::Global;
use std::fs;
use std::fs::{File, OpenFile};
use std::rt::Runtime;

/// Answers the refusal for an allocation that failed: out of memory.
pub(crate) fn no_memory<E: Drop>(_error: E) -> Refusal {
    Refusal::NoMemory
}

/// The path by which standard input is opened.
const STANDARD_INPUT: &str = "/dev/stdin";

/// Answers the path of a file that is read: that of standard input for the name `-`, else the name.
pub(crate) fn path_of(name: &str) -> &str {
    if is_dash(name) { STANDARD_INPUT } else { name }
}

/// The files of the machine on which the program runs.
#[derive(Drop)]
pub(crate) struct Machine<'a, R> {
    pub(crate) rt: &'a R,
}

impl<R: Runtime + AllocGlobal> Disk for Machine<'_, R> {
    type Source = R::File;

    /// The allocator of the runtime.
    fn alloc(&self) -> Global {
        self.rt.alloc()
    }

    /// Opens the file at a path, and notes whether it is a regular one, which has an end.
    fn open(&self, path: &str, refusal: Refusal) -> Result<Pieces<R::File>, Refusal> {
        let (file, has_end) = self.opened(path, refusal)?;
        match Pieces::of(self.rt.alloc(), file, has_end, refusal) {
            Ok(pieces) => Ok(pieces),
            Err(_) => Err(Refusal::NoMemory),
        }
    }
}

impl<R: Runtime + AllocGlobal> Machine<'_, R> {
    /// Opens the file at a path, and answers whether it is a regular one, which has an end; a pipe, a terminal or a device may have none.
    /// The error is out of memory, or else `refusal`.
    pub(crate) fn opened(&self, path: &str, refusal: Refusal) -> Result<(R::File, bool), Refusal>
        ensures { IfErr result (IsRefusedAs refusal) }
    {
        let file = match File::open(self.rt, path_of(path)) {
            Ok(file) => file,
            Err(error) => return Err(refused(error, refusal)),
        };
        let has_end = match file.metadata() {
            Ok(metadata) => metadata.is_file(),
            Err(_) => false,
        };
        Ok((file, has_end))
    }
}

/// Opens the file of a name, to be read piece by piece. The error is out of memory, or else `refusal`.
pub(crate) fn open<R: Runtime + AllocGlobal>(
    rt: &R,
    path: &str,
    refusal: Refusal,
) -> Result<Pieces<R::File>, Refusal> {
    Machine { rt }.open(path, refusal)
}

/// Reads all bytes of the file of a name. Room for them is taken at once, if the system tells how many they are. The error is out of
/// memory, or else `refusal`.
pub(crate) fn read<R: Runtime + AllocGlobal>(
    rt: &R,
    path: &str,
    refusal: Refusal,
) -> Result<Vec<u8>, Refusal> {
    let mut pieces = open(rt, path, refusal)?;
    let len = match fs::metadata(rt, path_of(path)) {
        Ok(metadata) => metadata.len(),
        Err(_) => 0,
    };
    read_bytes(rt.alloc(), &mut pieces, len as usize)
}

/// Reads the formula in the file of a name within these limits, or the first fault of its text, which is the inner error. The outer error
/// is that the file cannot be read, or want of memory.
pub(crate) fn read_formula<R: Runtime + AllocGlobal>(
    rt: &R,
    limits: Limits,
    path: &str,
) -> Result<Result<Formula, DimacsFault>, Refusal> {
    commands::read_formula(rt.alloc(), limits, &mut open(rt, path, Refusal::Input)?)
}

/// Reads all bytes of the file of cubes; `None` if no file is named.
pub(crate) fn read_cubes<R: Runtime + AllocGlobal>(
    rt: &R,
    path: Option<&str>,
) -> Result<Option<Vec<u8>>, Refusal> {
    match path {
        Some(path) => match read(rt, path, Refusal::Cubes) {
            Ok(bytes) => Ok(Some(bytes)),
            Err(refusal) => Err(refusal),
        },
        None => Ok(None),
    }
}
