//! `share` and `weave`: a worker of a cell in a folder, and the one log that the logs of a cell make.

use crate::cell_folder::{CellFolder, FolderLogs, Printed, fill_random};
use crate::files::Machine;
use commands::{
    LeafSharing, Sharing, WeaveFiles, share_files, share_leaf_files, weave_files, weave_leaf_files,
};
use dimacs::Limits;
use node_main::{Refusal, Report, Request};
use sharing::Asked;
use std::rt::Runtime;

/// The limit that stands for no limit: it is above the number of lemmas that a worker can learn.
const NO_LIMIT: u64 = 1 << 47;

/// The seed that is given, or a random one, which is not 0.
fn seed_of<R: Runtime>(rt: &R, given: Option<u64>) -> Result<u64, Refusal> {
    match given {
        Some(seed) => Ok(seed),
        None => {
            let mut room = [0u8; 8];
            fill_random(rt, &mut room)?;
            Ok(u64::from_le_bytes(room).max(1))
        }
    }
}

/// Searches as one worker of a cell. The words have to name both cubes and a leaf, or neither.
pub(crate) fn share<R: Runtime + AllocGlobal>(
    rt: &R,
    limits: Limits,
    request: &Request,
) -> Result<Report, Refusal> {
    let Request::Share {
        input,
        folder,
        cubes,
        leaf,
        seed,
        limit,
        turn,
        printing,
    } = *request
    else {
        return Err(Refusal::Usage);
    };
    let asked = Asked {
        seed: seed_of(rt, seed)?,
        limit: limit.unwrap_or(NO_LIMIT),
        turn,
        quiet: printing.quiet,
    };
    let sharing = Sharing {
        input,
        asked,
        witness: printing.witness,
    };
    let mut cell = CellFolder::of(rt, folder)?;
    let mut printed = Printed { rt };
    match (cubes, leaf) {
        (None, None) => share_files(&Machine { rt }, limits, &sharing, &mut cell, &mut printed),
        (Some(cubes), Some(leaf)) => {
            let files = LeafSharing {
                sharing,
                cubes,
                leaf: u64::from(leaf),
            };
            share_leaf_files(&Machine { rt }, limits, &files, &mut cell, &mut printed)
        }
        _ => Err(Refusal::Usage),
    }
}

/// Weaves the logs of a cell in a folder. It errs if the woven log would be written over one of them.
pub(crate) fn weave<R: Runtime + AllocGlobal>(
    rt: &R,
    limits: Limits,
    folder: &str,
    files: &WeaveFiles<'_>,
    cubes: Option<&str>,
) -> Result<Report, Refusal> {
    let logs = FolderLogs::of(rt, folder)?;
    if logs.has(files.log.path)? {
        return Err(Refusal::Writing);
    }
    match cubes {
        Some(cubes) => weave_leaf_files(&mut Machine { rt }, limits, files, cubes, &logs),
        None => weave_files(&mut Machine { rt }, limits, files, &logs),
    }
}
