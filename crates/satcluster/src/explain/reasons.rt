//! Tells why a file cannot be read, or cannot be written.

use crate::explain::paths::Paths;
use crate::explain::sentence::tell_of;
use crate::proof_file::is_same_file;
use crate::standard_input::is_dash;
use explanations::Reason;
use std::fs;
use std::fs::{File as OpenedFile, OpenFile};
use std::io::ErrorKind;
use std::rt::Runtime;

/// Answers why a file cannot be read. What is no regular file is not opened again, since that might wait for ever.
fn why_unread<R: Runtime>(rt: &R, path: &str) -> Reason {
    if is_dash(path) {
        return Reason::Passing;
    }
    match fs::metadata(rt, path) {
        Err(error) => match error.kind() {
            ErrorKind::PermissionDenied => Reason::Forbidden,
            _ => Reason::Absent,
        },
        Ok(metadata) if metadata.is_dir() => Reason::Folder,
        Ok(metadata) if !metadata.is_file() => Reason::Passing,
        Ok(_) => match OpenedFile::open(rt, path) {
            Err(error) if error.kind() == ErrorKind::PermissionDenied => Reason::Forbidden,
            _ => Reason::Broken,
        },
    }
}

/// Tells why a file cannot be read, if a path is given.
pub(crate) fn tell_unread<R: Runtime>(rt: &R, path: Option<&str>) {
    if let Some(path) = path {
        tell_of(rt, why_unread(rt, path).told(), path);
    }
}

/// Answers the path of the folder of a file.
fn folder_of(path: &str) -> &str {
    match path.rsplit_once('/') {
        Some(("", _)) => "/",
        Some((folder, _)) => folder,
        None => ".",
    }
}

/// Whether the file that is written is one of those that are read.
fn is_read<R: Runtime>(rt: &R, paths: &Paths, written: &str) -> bool {
    is_same_file(rt, written, paths.input)
        || is_some_same(rt, paths.cubes, written)
        || is_some_same(rt, paths.read, written)
        || paths
            .joined
            .iter()
            .any(|name| is_same_file(rt, name, written))
}

/// Whether a path is given and leads to the file that is written.
fn is_some_same<R: Runtime>(rt: &R, path: Option<&str>, written: &str) -> bool {
    match path {
        Some(path) => is_same_file(rt, path, written),
        None => false,
    }
}

/// Answers why a write to a file has failed: its path is a folder, its folder is missing, ..
fn why_unwritten<R: Runtime>(rt: &R, paths: &Paths, written: &str) -> Reason {
    if is_read(rt, paths, written) {
        return Reason::Read;
    }
    match fs::metadata(rt, written) {
        Ok(metadata) if metadata.is_dir() => Reason::InFolder,
        Ok(_) => Reason::Unwritten,
        Err(_) => match fs::metadata(rt, folder_of(written)) {
            Ok(_) => Reason::Unwritten,
            Err(_) => Reason::NoFolder,
        },
    }
}

/// Tells why the file of a request cannot be written, if the request writes one.
pub(crate) fn tell_unwritten<R: Runtime>(rt: &R, paths: &Paths) {
    if let Some(written) = paths.written {
        tell_of(rt, why_unwritten(rt, paths, written).told(), written);
    }
}
