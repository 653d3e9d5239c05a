//! Reads one receipt after another into a cover, and makes the line of each file and the report.

ghost use Rattle.std.specs.Prelude.{◌≡◌, ◌++◌, ◌+◌, ◌<◌, ◌^◌, ℕ, List, All, codes, map, IfOk, IfErr, OnOk};
ghost use Rattle.commands.specs.Cover.{EndsCover, TakesText, taken_line, with_text, without_text};
ghost use Rattle.commands.specs.Names.{AreTaken, Gone, none_gone};
ghost use Rattle.commands.specs.Refusals.{IsWanting};
ghost use Rattle.commands.specs.inner.Cover.{IsGone, IsText};
ghost use Rattle.dimacs.specs.logic.Cnf.{Cnf};
ghost use Rattle.log_join.specs.ClosedLeaves.{Leaf, open_from};
ghost use Rattle.icnf.specs.Leaves.{Cube};
ghost use Rattle.leaves.specs.Leaf.{Prints};
ghost use Rattle.leaves.specs.Notes.{missing_text};
ghost use Rattle.receipts.specs.ClosedLeaves.{LeavesClosedByTexts, ClassifiesText};
ghost use Rattle.receipts.specs.Cover.{HasTakenTexts};
ghost use Rattle.receipts.specs.declared.cover.TextKind.{TextKind};

use crate::closed_leaves::{open_cover, stopped};
use crate::disk::Disk;
use crate::small_file::{SmallText, read_small};
use crate::whole_source::out_of_memory;
use leaves::{Note, Split, put_missing, put_note};
use receipts::{Cover, TextKind};
use reports::{Refusal, Report};
use std::alloc::{AllocError, Global};
use std::str::from_utf8;

/// A cover, the lines of the files so far, and how many files were counted.
pub(crate) struct Run {
    /// The receipts that were taken.
    pub(crate) cover: Cover,
    /// The lines, one for each file that has one.
    pub(crate) notes: Vec<u8>,
    /// How many names were counted, also of files that cannot be read.
    pub(crate) count: u64,
}

impl Drop for Run {
    fn drop(self) {
        let Run {
            cover: _,
            notes: _,
            count: _,
        } = self;
    }
}

/// A cover of the tree that has taken no receipt, without a line. It errs if memory runs out.
pub(crate) fn begin_run(alloc: Global, split: &Split) -> Result<Run, Refusal>
    ensures begins { IfOk result (IsGone split.now.formula split.now.tree none_gone) }
    ensures refused { IfErr result IsWanting }
{
    let cover = open_cover(alloc, split)?;
    Ok(Run {
        cover,
        notes: Vec::new(alloc),
        count: 0,
    })
}

/// Appends the line of the file of number `file` (from 1), by what its text is. A receipt that
/// closes a leaf has no line, nor does one that closes nothing if `quiet`.
fn put_taken(
    out: &mut Vec<u8>,
    file: u64,
    taken: TextKind,
    name: &[u8],
    quiet: bool,
) -> Result<(), AllocError>
    ensures { OnOk result (out.new.items ≡ out.old.items ++ taken_line quiet file name.now taken) }
{
    match taken {
        TextKind::Closes => Ok(()),
        TextKind::ClosesNothing if quiet => Ok(()),
        TextKind::ClosesNothing => put_note(out, file, Note::ClosesNothing, name),
        TextKind::OtherFormula => put_note(out, file, Note::OtherFormula, name),
        TextKind::Refused { line } => put_note(out, file, Note::NoReceipt { line }, name),
    }
}

/// Counts a file, takes its text into the cover, and appends its line. It errs if memory runs out.
fn take_text(run: &mut Run, name: &[u8], text: &[u8], quiet: bool) -> Result<(), Refusal>
    ensures taken { OnOk result ((F : Cnf) (cubes : List Cube) (s : Gone) → IsGone F cubes s run.old
        → (taken : TextKind) × ClassifiesText F cubes s.files text.now taken × IsGone F cubes (with_text quiet name.now text.now taken s) run.new) }
    ensures refused { IfErr result IsWanting }
{
    let taken = match run.cover.take(text) {
        Ok(taken) => taken,
        Err(fault) => return Err(stopped(fault)),
    };
    run.count = run.count.saturating_add(1);
    put_taken(&mut run.notes, run.count, taken, name, quiet).map_err(out_of_memory)
}

/// Counts a file whose text cannot be taken, and appends a line with the reason, `note`.
fn skip_file(run: &mut Run, name: &[u8], note: Note) -> Result<(), Refusal>
    ensures passed { OnOk result ((F : Cnf) (cubes : List Cube) (s : Gone) → IsGone F cubes s run.old → IsGone F cubes (without_text note name.now s) run.new) }
    ensures refused { IfErr result IsWanting }
{
    run.count = run.count.saturating_add(1);
    put_note(&mut run.notes, run.count, note, name).map_err(out_of_memory)
}

/// Reads the file of a name. `-`, and a name that is not UTF-8, are answered as `Unread`. It errs if memory runs out.
fn read_named<D: Disk>(disk: &D, name: &[u8]) -> Result<SmallText, Refusal>
    ensures reads { IfOk result (IsText (D.holds disk.now name.now)) }
    ensures refused { IfErr result IsWanting }
{
    match from_utf8(name) {
        Ok(path) if path != "-" => read_small(disk, path),
        _ => Ok(SmallText::Unread),
    }
}

/// Counts a name, reads its file, takes the text into the cover, and appends its line. A file that is too long, or cannot be read, has a
/// line that says so; it errs only if memory runs out.
fn take_file<D: Disk>(disk: &D, run: &mut Run, name: &[u8], quiet: bool) -> Result<(), Refusal>
    ensures taken { OnOk result ((F : Cnf) (cubes : List Cube) (s : Gone) → IsGone F cubes s run.old
        → (t : Gone) × TakesText F cubes quiet (D.holds disk.now name.now) name.now s t × IsGone F cubes t run.new) }
    ensures refused { IfErr result IsWanting }
{
    let read = read_named(disk, name)?;
    match read {
        SmallText::Whole(text) => take_text(run, name, &text, quiet),
        SmallText::TooLong => skip_file(run, name, Note::TooLong),
        SmallText::Unread => skip_file(run, name, Note::Unread),
    }
}

/// Reads the files of these names in turn, and takes their texts into the cover. It errs only if memory runs out.
pub(crate) fn take_all<D: Disk>(
    disk: &D,
    run: &mut Run,
    names: &[Vec<u8>],
    quiet: bool,
) -> Result<(), Refusal>
    ensures seen { OnOk result ((F : Cnf) (cubes : List Cube) (s : Gone) → IsGone F cubes s run.old
        → (t : Gone) × AreTaken (λ name. TakesText F cubes quiet (D.holds disk.now name) name) (map (λ n. n.items) names.now) s t × IsGone F cubes t run.new) }
    ensures refused { IfErr result IsWanting }
{
    for name in names {
        take_file(disk, run, name, quiet)?;
    }
    Ok(())
}

/// The report if all leaves are closed: the lines of the files, and `s COVERED`; status 0.
fn covered(mut notes: Vec<u8>) -> Result<Report, Refusal>
    ensures text { IfOk result (Prints 0 (notes.items ++ codes "s COVERED\n")) }
    ensures refused { IfErr result IsWanting }
{
    notes
        .extend_from_slice(b"s COVERED\n")
        .map_err(out_of_memory)?;
    Ok(Report {
        stdout: notes,
        status: 0,
        proof: None,
    })
}

/// Appends the lines of the open leaves, whose indexes (from 0) are `places`, and the line that not all are closed.
fn put_open(notes: &mut Vec<u8>, places: &[usize]) -> Result<(), AllocError>
    ensures { OnOk result (All (λ p. p + 1 < 2 ^ 64) places.now → notes.new.items ≡ notes.old.items ++ missing_text places.now ++ codes "s NOT COVERED\n") }
{
    put_missing(notes, places)?;
    notes.extend_from_slice(b"s NOT COVERED\n")
}

/// The report if leaves are open: the lines of the files, a line for each open leaf, by its index
/// from 0 in `places`, and `s NOT COVERED`; status 1.
fn uncovered(mut notes: Vec<u8>, places: &[usize]) -> Result<Report, Refusal>
    ensures text { IfOk result (λ r. All (λ p. p + 1 < 2 ^ 64) places.now → Prints 1 (notes.items ++ missing_text places.now ++ codes "s NOT COVERED\n") r) }
    ensures refused { IfErr result IsWanting }
{
    put_open(&mut notes, places).map_err(out_of_memory)?;
    Ok(Report {
        stdout: notes,
        status: 1,
        proof: None,
    })
}

/// Answers the indexes, from 0 and rising, of the leaves that no receipt closes. It errs if memory runs out.
fn missing(cover: &Cover) -> Result<Vec<usize>, Refusal>
    ensures places { IfOk result (λ places. (F : Cnf) (cubes : List Cube) (texts : List (List ℕ)) → HasTakenTexts F cubes texts cover.now
        → (leaves : List Leaf) × LeavesClosedByTexts F cubes texts leaves × (places.items ≡ open_from 0 leaves)) }
    ensures refused { IfErr result IsWanting }
{
    match cover.missing() {
        Ok(places) => Ok(places),
        Err(_) => Err(Refusal::NoMemory),
    }
}

impl Run {
    /// Makes the report after the last file: whether all leaves are closed, and which are open.
    pub(crate) fn finish(self) -> Result<Report, Refusal>
        ensures ends { IfOk result (λ r. (F : Cnf) (cubes : List Cube) (s : Gone) → IsGone F cubes s self → EndsCover F cubes s r) }
        ensures refused { IfErr result IsWanting }
    {
        let Run {
            cover,
            notes,
            count: _,
        } = self;
        if cover.is_complete() {
            return covered(notes);
        }
        let places = missing(&cover)?;
        uncovered(notes, &places)
    }
}
