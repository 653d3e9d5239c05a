//! `session`: opens the source of its events, and the outputs for its proof and its answers.

use crate::drafts::not_written;
use crate::files::{no_memory, path_of};
use crate::growing_file::create_growing;
use crate::standard_input::is_dash;
use commands::{Asking, Outputs, answer_session, print, refused};
use dimacs::Limits;
use node_main::{Refusal, Report};
use std::fs::{File, OpenFile};
use std::io;
use std::io::{BufReader, Read, Write};
use std::rt::Runtime;

/// The most bytes of events that are read at a time.
const PIECE: usize = 16_384;

/// The limit that stands for no limit: it is above the number of clauses and lemmas that a session can have.
const NO_LIMIT: u64 = 1 << 47;

/// The files of a session: the paths of its events and of its proof.
#[derive(Clone, Copy)]
pub(crate) struct SessionFiles<'a> {
    /// The path of the events.
    pub input: &'a str,
    /// The path of the proof, if it is to be written.
    pub proof: Option<&'a str>,
}

/// The outputs of a session: the file of its proof, if one is named, and standard output.
#[derive(Drop)]
struct Printer<'a, R, F> {
    rt: &'a R,
    proof: Option<F>,
}

impl<R: Runtime, F: Write> Outputs for Printer<'_, R, F> {
    /// Appends bytes to the file of the proof, if one is written.
    fn prove(&mut self, bytes: &[u8]) -> Result<(), Refusal> {
        match &mut self.proof {
            Some(file) => file.write_all(bytes).map_err(not_written),
            None => Ok(()),
        }
    }

    /// Prints a text on standard output and flushes; false if that fails.
    fn print(&mut self, text: &[u8]) -> bool {
        print(&mut io::writer(self.rt), text).is_ok()
    }
}

/// Creates or truncates the file of the proof; `None` if none is named. It errs if the path leads to the events or standard output, or if
/// the file cannot be created.
fn proof_of<R: Runtime + AllocGlobal>(
    rt: &R,
    files: SessionFiles<'_>,
) -> Result<Option<R::File>, Refusal> {
    let Some(path) = files.proof else {
        return Ok(None);
    };
    let file = create_growing(rt, path, files.input, None)?;
    Ok(Some(file))
}

/// Answers the queries of a session whose events come from this source.
fn run<R: Runtime + AllocGlobal, S: Read + Drop>(
    rt: &R,
    source: S,
    files: SessionFiles<'_>,
    asking: Asking,
) -> Result<Report, Refusal> {
    let events = BufReader::with_capacity(rt.alloc(), PIECE, source).map_err(no_memory)?;
    let mut printer = Printer {
        rt,
        proof: proof_of(rt, files)?,
    };
    answer_session(rt.alloc(), events, &mut printer, asking)
}

/// Answers the queries of a session within these limits. If the file of events cannot be opened, the file of the proof is not touched.
pub(crate) fn session<R: Runtime + AllocGlobal>(
    rt: &R,
    limits: Limits,
    files: SessionFiles<'_>,
    limit: Option<u64>,
    witness: bool,
) -> Result<Report, Refusal> {
    let asking = Asking {
        limits,
        limit: limit.unwrap_or(NO_LIMIT),
        witness,
    };
    if is_dash(files.input) {
        return run(rt, rt.reader(), files, asking);
    }
    match File::open(rt, path_of(files.input)) {
        Ok(file) => run(rt, file, files, asking),
        Err(error) => Err(refused(error, Refusal::Input)),
    }
}
