//! The files that a run writes: `commands::Drafts` over the operating system.

ghost use Rattle.std.specs.Prelude.{◌≡◌, IfErr};
ghost use Rattle.commands.specs.Refusals.{IsRefusedAs};

use crate::files::Machine;
use crate::proof_file::{
    Part, Place, append, is_part, is_printed_to, is_same_file, keep, leads_to, make_part, place_of,
    remove,
};
use commands::{Drafts, Target, Way, refused, write_text};
use node_main::Refusal;
use packed_text::PackedText;
use std::fs::{File, OpenFile};
use std::io::Write;
use std::rt::Runtime;
use std::{fs, io};

/// An unfinished file.
#[derive(Drop)]
pub(crate) enum Draft<F> {
    /// A temporary file beside its path, and the path to which it will be renamed.
    Beside(Part<F>, Place),
    /// What is at the path, which is no regular file.
    InPlace(F),
}

/// Answers the refusal for an I/O error of a write: out of memory, or else `Writing`.
pub(crate) fn not_written(error: io::Error) -> Refusal
    ensures { IsRefusedAs Refusal.Writing result }
{
    refused(error, Refusal::Writing)
}

/// Creates a temporary file beside the file to which the path leads; `None` if none can be made there. It errs if the file cannot be
/// written, or if it is standard output.
fn begin_beside<R: Runtime + AllocGlobal>(
    rt: &R,
    path: &str,
) -> Result<Option<Draft<R::File>>, Refusal>
    ensures { IfErr result (IsRefusedAs Refusal.Writing) }
{
    let Some(place) = place_of(rt, path).map_err(not_written)? else {
        return Ok(None);
    };
    if is_printed_to(rt, &place) {
        return Err(Refusal::Writing);
    }
    match make_part(rt, &place).map_err(not_written)? {
        Some(part) => Ok(Some(Draft::Beside(part, place))),
        None => Ok(None),
    }
}

/// Whether what is at a path is written itself: a device, a pipe, or what a link names that leads nowhere. A regular file is not, since a
/// run that ends early would leave it cut short.
fn is_written_in_place<R: Runtime>(rt: &R, path: &str) -> bool {
    match fs::metadata(rt, path) {
        Ok(found) => !found.is_file() && !found.is_dir(),
        Err(_) => fs::symlink_metadata(rt, path).is_ok(),
    }
}

/// Opens what is at a path, if it is written itself; else answers `None`.
fn begin_in_place<R: Runtime>(rt: &R, path: &str) -> Result<Option<Draft<R::File>>, Refusal>
    ensures { IfErr result (IsRefusedAs Refusal.Writing) }
{
    if !is_written_in_place(rt, path) {
        return Ok(None);
    }
    let file = File::create(rt, path).map_err(not_written)?;
    Ok(Some(Draft::InPlace(file)))
}

impl<R: Runtime + AllocGlobal> Drafts for Machine<'_, R> {
    type Draft = Draft<R::File>;

    /// Whether two paths lead to the same file.
    fn is_same(&self, path: &str, other: &str) -> bool {
        is_same_file(self.rt, path, other)
    }

    /// Makes a temporary file beside the path and removes it, if the path leads to a regular file or to nothing.
    fn test(&self, path: &str) -> Result<(), Refusal> {
        match begin_beside(self.rt, path)? {
            Some(draft) => {
                self.remove(draft);
                Ok(())
            }
            None if is_written_in_place(self.rt, path) => Ok(()),
            None => Err(Refusal::Writing),
        }
    }

    /// Creates a temporary file beside the path, or opens what is there, if it is no regular file.
    fn begin(&self, path: &str, way: Way) -> Result<Option<Draft<R::File>>, Refusal> {
        match way {
            Way::Beside => begin_beside(self.rt, path),
            Way::InPlace => begin_in_place(self.rt, path),
        }
    }

    /// Writes bytes at the end of the temporary file, or of the file itself.
    fn append(&self, draft: &mut Draft<R::File>, bytes: &[u8]) -> Result<(), Refusal> {
        let written = match draft {
            Draft::Beside(part, _) => append(part, bytes),
            Draft::InPlace(file) => file.write_all(bytes),
        };
        written.map_err(not_written)
    }

    /// Whether a path leads to the temporary file, or to the file that it will replace.
    fn leads_to(&self, draft: &Draft<R::File>, path: &str) -> bool {
        match draft {
            Draft::Beside(part, place) => {
                leads_to(self.rt, place, path) || is_part(self.rt, part, path)
            }
            Draft::InPlace(_) => false,
        }
    }

    /// Renames the temporary file to its path; a file that was written in place is there already.
    fn keep(&mut self, draft: Draft<R::File>) -> Result<bool, Refusal> {
        match draft {
            Draft::Beside(part, place) => keep(self.rt, part, &place).map_err(not_written),
            Draft::InPlace(_) => Ok(true),
        }
    }

    /// Removes the temporary file; a file that was written in place stays.
    fn remove(&self, draft: Draft<R::File>) {
        match draft {
            Draft::Beside(part, _) => remove(self.rt, part),
            Draft::InPlace(_) => {}
        }
    }
}

/// Errs if a file is named that cannot be written, before a run that would be in vain.
pub(crate) fn test_named<R: Runtime + AllocGlobal>(
    rt: &R,
    path: Option<&str>,
) -> Result<(), Refusal> {
    match path {
        Some(path) => Machine { rt }.test(path),
        None => Ok(()),
    }
}

/// Writes a proof to the target. It errs if the target's path leads to the input or the cubes, or if the proof cannot be written.
pub(crate) fn write_proof<R: Runtime + AllocGlobal>(
    rt: &R,
    target: Target<'_>,
    proof: &PackedText,
    input: &str,
    cubes: Option<&str>,
) -> Result<(), Refusal> {
    let was_read = is_same_file(rt, target.path, input)
        || match cubes {
            Some(cubes) => is_same_file(rt, target.path, cubes),
            None => false,
        };
    if was_read {
        return Err(Refusal::Writing);
    }
    write_text(&mut Machine { rt }, target, proof)
}
