//! Of which commit this very program was proved, as `--version` says it.

use crate::files::Machine;
use commands::{identity_line, refused};
use node_main::Refusal;
use std::alloc::{AllocError, Global};
use std::fs;
use std::fs::Files;
use std::path::Path;
use std::rt::Runtime;

/// The file of the program that runs.
const OWN: &str = "/proc/self/exe";

/// Where the note on its proof may be, from the folder of the program: beside it as it is built, and as it is installed.
const PLACES: [&str; 2] = ["PROVED", "../share/doc/satcluster/PROVED"];

/// The path of the note on the proof of the program at a path: the first one that is there, or else the first place.
fn note_of<R: Runtime + AllocGlobal>(rt: &R, program: Path<'_>) -> Result<String, AllocError> {
    let alloc = rt.alloc();
    let folder = match program.parent() {
        Some(folder) => folder,
        None => program,
    };
    for place in PLACES {
        let path = folder.join(alloc, place)?;
        if fs::metadata(rt, path.as_str()).is_ok() {
            return String::from_str(alloc, path.as_str());
        }
    }
    String::from_str(alloc, PLACES[0])
}

/// The line that says of which commit this program was proved, or that this is not known. It errs if memory runs out.
pub(crate) fn identity<R: Runtime + AllocGlobal>(rt: &R) -> Result<Vec<u8>, AllocError> {
    let note = match rt.read_link(rt.alloc(), OWN) {
        Ok(program) => note_of(rt, program.as_path())?,
        Err(error) => match refused(error, Refusal::Input) {
            Refusal::NoMemory => return Err(AllocError),
            _ => String::from_str(rt.alloc(), PLACES[0])?,
        },
    };
    identity_line(&Machine { rt }, OWN, note.as_str()).map_err(|_| AllocError)
}
