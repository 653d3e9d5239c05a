//! A temporary file beside a path, which is renamed to the path once it is whole.

use crate::files::path_of;
use std::fs::{File, Metadata, OpenFile, OpenOptions};
use std::io::{ErrorKind, Write};
use std::os::unix::fs::MetadataExt;
use std::rt::Runtime;
use std::{fs, io};

/// The path of standard output.
const STANDARD_OUTPUT: &str = "/dev/stdout";

/// How many names are tried for the temporary file.
const NAMES: u32 = 100;

/// Where a file is to be written: its path, and the file that is there already.
pub(crate) struct Place {
    /// The path, with symbolic links resolved if there is a file.
    path: String,
    /// The metadata of the file that is there, whose permissions the new file gets; `None` if there is none.
    old: Option<Metadata>,
}

impl Drop for Place {
    fn drop(self) {
        let Place { path: _, old: _ } = self;
    }
}

/// A temporary file beside its path, and the temporary file's name.
pub(crate) struct Part<F> {
    file: F,
    name: String,
}

impl<F: Drop> Drop for Part<F> {
    fn drop(self) {
        let Part { file: _, name: _ } = self;
    }
}

/// Whether two paths lead to one file; if one of them leads to none, whether the paths are equal.
pub(crate) fn is_same_file<R: Runtime>(rt: &R, path: &str, other: &str) -> bool {
    match (
        fs::metadata(rt, path_of(path)),
        fs::metadata(rt, path_of(other)),
    ) {
        (Ok(found), Ok(known)) => found.dev() == known.dev() && found.ino() == known.ino(),
        _ => path == other,
    }
}

/// Answers where a path leads; `None` if something else than a regular file is there, or a dangling link. A file without write permission
/// is an error, although a rename could replace it.
pub(crate) fn place_of<R: Runtime + AllocGlobal>(rt: &R, path: &str) -> io::Result<Option<Place>> {
    match fs::metadata(rt, path) {
        Ok(old) if old.is_file() => {
            let _ = OpenOptions::new().write(true).open(rt, path)?;
            let target = fs::canonicalize(rt, path)?;
            Ok(Some(Place {
                path: format!(in rt.alloc(); "{}", target.as_str())?,
                old: Some(old),
            }))
        }
        Err(error) if error.kind() == ErrorKind::NotFound => {
            if fs::symlink_metadata(rt, path).is_ok() {
                return Ok(None);
            }
            Ok(Some(Place {
                path: format!(in rt.alloc(); "{path}")?,
                old: None,
            }))
        }
        Err(error) if error.kind() == ErrorKind::OutOfMemory => Err(error),
        _ => Ok(None),
    }
}

/// Creates the temporary file `PATH.partN` beside the path, with the permissions of the file that
/// it will replace; `None` if it cannot be created so.
pub(crate) fn make_part<R: Runtime + AllocGlobal>(
    rt: &R,
    place: &Place,
) -> io::Result<Option<Part<R::File>>> {
    let path = place.path.as_str();
    for number in 0..NAMES {
        let name = format!(in rt.alloc(); "{path}.part{number}")?;
        match File::create_new(rt, name.as_str()) {
            Ok(file) => {
                return Ok(copy_permissions(rt, Part { file, name }, place));
            }
            Err(error) if error.kind() == ErrorKind::AlreadyExists => {}
            Err(error) if error.kind() == ErrorKind::OutOfMemory => return Err(error),
            Err(_) => return Ok(None),
        }
    }
    Ok(None)
}

/// Gives a temporary file the permissions of the file that it will replace; if it cannot, removes it and answers `None`.
fn copy_permissions<R: Runtime>(
    rt: &R,
    part: Part<R::File>,
    place: &Place,
) -> Option<Part<R::File>> {
    if let Some(old) = &place.old {
        if part.file.set_permissions(old.permissions()).is_err() {
            remove(rt, part);
            return None;
        }
    }
    Some(part)
}

/// Whether a path leads to the file of this place.
pub(crate) fn leads_to<R: Runtime>(rt: &R, place: &Place, path: &str) -> bool {
    is_same_file(rt, path, place.path.as_str())
}

/// Whether standard output goes to the file of this place, which would be overwritten.
pub(crate) fn is_printed_to<R: Runtime>(rt: &R, place: &Place) -> bool {
    leads_to(rt, place, STANDARD_OUTPUT)
}

/// Appends bytes to the temporary file.
pub(crate) fn append<F: Write>(part: &mut Part<F>, bytes: &[u8]) -> io::Result<()> {
    part.file.write_all(bytes)
}

/// Whether a path leads to the temporary file.
pub(crate) fn is_part<R: Runtime>(rt: &R, part: &Part<R::File>, path: &str) -> bool {
    is_same_file(rt, path, part.name.as_str())
}

/// Syncs the temporary file to disk and renames it to the path of its place. Answers false, and removes the file, if it cannot be renamed;
/// it errs, and removes the file, if it cannot be synced.
pub(crate) fn keep<R: Runtime>(rt: &R, part: Part<R::File>, place: &Place) -> io::Result<bool> {
    if let Err(error) = part.file.sync_all() {
        remove(rt, part);
        return Err(error);
    }
    let renamed = fs::rename(rt, part.name.as_str(), place.path.as_str());
    if renamed.is_ok() {
        return Ok(true);
    }
    remove(rt, part);
    match renamed {
        Err(error) if error.kind() == ErrorKind::OutOfMemory => Err(error),
        _ => Ok(false),
    }
}

/// Removes the temporary file; a failure is ignored.
pub(crate) fn remove<R: Runtime>(rt: &R, part: Part<R::File>) {
    let _ = fs::remove_file(rt, part.name.as_str());
}
