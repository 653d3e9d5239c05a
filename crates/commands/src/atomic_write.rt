//! Writes a packed text to a temporary file that is renamed to the path; or, where no regular file is, into what is there.

ghost use Rattle.std.specs.Prelude.{◌≡◌, ◌++◌, ℕ, Bool, List, [], IfOk, IfErr, IsTrue, OnOk, OnErr};
ghost use Rattle.commands.specs.Refusals.{IsRefusedAs};
ghost use Rattle.commands.specs.Written.{IsLeft, Keeps};
ghost use Rattle.commands.specs.inner.Parts.{IsPart};

use crate::drafts::{Drafts, Target, Way};
use crate::part_file::{Part, append, keep, part_of, remove};
use packed_text::PackedText;
use reports::Refusal;

/// How many bytes of a packed text are unpacked and written at a time.
const PIECE: usize = 65_536;

/// Unpacks a text, `PIECE` bytes at a time, and appends it to an unfinished file. It errs
/// if memory runs out or a write fails.
pub(crate) fn append_packed<D: Drafts>(
    disk: &D,
    part: &mut Part<D::Draft>,
    text: &PackedText,
) -> Result<(), Refusal>
    ensures written { OnOk result ((binary : Bool) (path before : List ℕ) → IsPart D.made binary path before part.old → IsPart D.made binary path (before ++ text.now) part.new) }
    ensures refused { IfErr result (IsRefusedAs Refusal.Writing) }
{
    for i in 0..text.len() / PIECE + 1 {
        let piece = match text.read(disk.alloc(), PIECE * i, PIECE) {
            Ok(piece) => piece,
            Err(_) => return Err(Refusal::NoMemory),
        };
        append(disk, part, piece.as_slice())?;
    }
    Ok(())
}

/// Writes a text to a new file, and puts the file at its path (`keep`). Answers false if a
/// temporary file cannot be renamed to that path. A file that is not put there is removed.
fn fill<D: Drafts>(
    disk: &mut D,
    mut part: Part<D::Draft>,
    text: &PackedText,
) -> Result<bool, Refusal>
    ensures kept { IfOk result (λ b. IsTrue b → (binary : Bool) (path : List ℕ) → IsPart D.made binary path [] part → Keeps D.kept disk.old disk.new binary path text.now) }
    ensures left { IsLeft disk.old disk.new result }
    ensures refused { IfErr result (IsRefusedAs Refusal.Writing) }
{
    match append_packed(disk, &mut part, text) {
        Ok(()) => keep(disk, part),
        Err(refusal) => {
            remove(disk, part);
            Err(refusal)
        }
    }
}

/// Creates the file of a target, beside its path or in place, and writes a text to it. Answers
/// false if the file cannot be created so, or not be renamed to its path.
fn write_by<D: Drafts>(
    disk: &mut D,
    target: Target<'_>,
    way: Way,
    text: &PackedText,
) -> Result<bool, Refusal>
    ensures kept { IfOk result (λ b. IsTrue b → Keeps D.kept disk.old disk.new target.entry.binary target.entry.path.now text.now) }
    ensures left { IsLeft disk.old disk.new result }
    ensures refused { IfErr result (IsRefusedAs Refusal.Writing) }
{
    match disk.begin(target.path, way)? {
        Some(draft) => {
            let part = part_of(disk, draft, target.binary);
            fill(disk, part, text)
        }
        None => Ok(false),
    }
}

/// Writes a text to the path of a target: to a temporary file beside it that is renamed, or, if the path leads to a device or a pipe, into
/// that. It errs if neither can be done, a write fails, or memory runs out.
pub fn write_text<D: Drafts>(
    disk: &mut D,
    target: Target<'_>,
    text: &PackedText,
) -> Result<(), Refusal>
    ensures kept { OnOk result (Keeps D.kept disk.old disk.new target.entry.binary target.entry.path.now text.now) }
    ensures left { OnErr result (disk.new ≡ disk.old) }
    ensures refused { IfErr result (IsRefusedAs Refusal.Writing) }
{
    if write_by(disk, target, Way::Beside, text)? {
        return Ok(());
    }
    if write_by(disk, target, Way::InPlace, text)? {
        return Ok(());
    }
    Err(Refusal::Writing)
}
