//! Reads one file after another into a join, and writes the proof meanwhile.

ghost use Rattle.std.specs.Prelude.{◌≡◌, ◌≢◌, ◌⊎◌, ◌++◌, ◌∷◌, ℕ, Bool, false, List, [], Option, None, map, IfOk, IfErr, OnOk};
ghost use Rattle.commands.specs.Join.{AnswersBy, IsFree, ReadsFile, Stops, Takes, fault_note as note_of, without_file};
ghost use Rattle.commands.specs.Names.{Gone, one_more};
ghost use Rattle.commands.specs.Known.{HoldsOf};
ghost use Rattle.commands.specs.Refusals.{IsRefusedAs, IsWanting};
ghost use Rattle.commands.specs.declared.drafts.Target.{Target};
ghost use Rattle.commands.specs.inner.Join.{Ends, Goes, HasPart, IsAt, IsKept, Stands, TakesSome, Tells};
ghost use Rattle.dimacs.specs.logic.Cnf.{Cnf};
ghost use Rattle.dimacs.specs.text.Answer.{satisfied_lines};
ghost use Rattle.text_or_binary.specs.FormJoin.{HasReadFormFiles};
ghost use Rattle.icnf.specs.Leaves.{Cube};
ghost use Rattle.leaves.specs.Leaf.{Prints};
ghost use Rattle.leaves.specs.Notes.{note_text};

use crate::drafts::{Drafts, Target};
use crate::feed_loop::{Fed, Feeds, feed_on};
use crate::part_file::{Part, append};
use crate::piece_reader::Pieces;
use crate::whole_source::out_of_memory;
use dimacs::{Answer, Assignment, answer_lines};
use leaves::{FileOutcome, Note, put_note};
use log_join::LogJoinFault;
use reports::{Refusal, Report};
use std::alloc::Global;
use text_or_binary::FormJoin;

/// The options of `join`.
#[derive(Clone, Copy)]
pub struct JoinOptions<'a> {
    /// The file of the proof; `None` for `--dry`.
    pub proof: Option<Target<'a>>,
    /// `-q`: no line for a file that closes nothing, and none for a fault of the formula or the cubes.
    pub quiet: bool,
    /// Whether the `v` lines of an assignment are printed.
    pub witness: bool,
}

/// Answers the refusal for a fault of a join: `NoMemory` for want of memory, and `Writing` for a
/// proof whose numbers grow too large.
pub fn stopped(fault: LogJoinFault) -> Refusal
    ensures { IsRefusedAs Refusal.Writing result }
{
    match fault {
        LogJoinFault::NoMemory => Refusal::NoMemory,
        _ => Refusal::Writing,
    }
}

/// A join, and the unfinished file of its proof. It has no `Drop`: the file is kept or removed by
/// a call.
pub(crate) struct Joined<'a, D: Drafts> {
    pub(crate) disk: &'a D,
    pub(crate) join: FormJoin,
    /// `None` if no proof is written.
    pub(crate) part: Option<Part<D::Draft>>,
}

/// Appends bytes to the file of the proof, if one is written.
fn append_some<D: Drafts>(
    disk: &D,
    part: &mut Option<Part<D::Draft>>,
    text: &[u8],
) -> Result<(), Refusal>
    ensures written { OnOk result ((target : Option Target) (written : List ℕ) → HasPart D.made target written part.old → HasPart D.made target (written ++ text.now) part.new) }
    ensures refused { IfErr result (IsRefusedAs Refusal.Writing) }
{
    match part {
        Some(part) => append(disk, part, text),
        None => Ok(()),
    }
}

/// Appends to the file of the proof the bytes that the join has produced since the last call; if no proof is written, they are dropped.
pub(crate) fn write<D: Drafts>(joined: &mut Joined<'_, D>) -> Result<(), Refusal>
    ensures part { OnOk result ((target : Option Target) (written : List ℕ) → HasPart D.made target written joined.old.part
        → HasPart D.made target (written ++ joined.old.join.join.lines.out.items) joined.new.part) }
    ensures holds { OnOk result ((F : Cnf) (cubes : List Cube) (files : List (List ℕ)) (bytes written : List ℕ) → HasReadFormFiles F cubes files bytes written joined.old.join
        → HasReadFormFiles F cubes files bytes (written ++ joined.old.join.join.lines.out.items) joined.new.join) }
    ensures disk { joined.new.disk ≡ joined.old.disk }
    ensures refused { IfErr result (IsRefusedAs Refusal.Writing) }
{
    append_some(joined.disk, &mut joined.part, joined.join.written())?;
    joined.join.forget();
    Ok(())
}

impl<D: Drafts> Feeds for Joined<'_, D> {
    ghost use Rattle.commands.specs.Refusals.{IsRefusedAs};
    ghost use Rattle.commands.specs.inner.Join.{HasJoinedOn, joined_on_more, joined_on_nothing};
    ghost use Rattle.reports.specs.declared.refusal.Refusal.TheVariants.{Writing};

    ghost took = { λ old new more. HasJoinedOn D.made old.disk new.disk old.join new.join old.part new.part more };

    ghost fails = { IsRefusedAs Writing };

    ghost nothing = { λ s. joined_on_nothing D.made s.disk s.join s.part };

    ghost more = { λ a b c xs ys h k. joined_on_more D.made a.disk b.disk c.disk a.join b.join c.join a.part b.part c.part xs ys h k };

    /// Joins the next piece of a file, and writes what that adds to the proof.
    fn feed(&mut self, piece: &[u8]) -> Result<(), Refusal> {
        self.join.feed(piece).map_err(stopped)?;
        write(self)
    }

    /// False: a file is read to its end even after a fault, so that one that cannot be read is told
    /// as that.
    fn is_settled(&self) -> bool {
        false
    }
}

/// What a file is that was read to its end.
#[derive(Drop)]
pub(crate) struct Ended {
    /// Whether it closes leaves or nothing, has a fault, or satisfies the formula.
    pub(crate) end: FileOutcome,
    /// Whether it is in binary form, so that its fault is that of a step and not of a line.
    pub(crate) is_binary: bool,
}

/// Ends a file that was read to its end, and appends the end of its part of the proof. Answers what
/// the file is.
fn end_file<D: Drafts>(joined: &mut Joined<'_, D>) -> Result<Ended, Refusal>
    ensures ends { IfOk result (λ e. Ends D.made joined.old.join joined.new.join joined.old.part joined.new.part e) }
    ensures disk { joined.new.disk ≡ joined.old.disk }
    ensures refused { IfErr result (IsRefusedAs Refusal.Writing) }
{
    let is_binary = joined.join.is_binary();
    let end = joined.join.end().map_err(stopped)?;
    write(joined)?;
    Ok(Ended { end, is_binary })
}

/// Gives up a file in which a read failed: what was read of it closes nothing. Appends the end of
/// its part to the proof.
fn abandon<D: Drafts>(joined: &mut Joined<'_, D>) -> Result<(), Refusal>
    ensures stands { OnOk result ((target : Option Target) (F : Cnf) (cubes : List Cube) (files : List (List ℕ)) (bytes : List ℕ)
        → Stands D.made target F cubes files bytes joined.old.join joined.old.part → Stands D.made target F cubes files [] joined.new.join joined.new.part) }
    ensures disk { joined.new.disk ≡ joined.old.disk }
    ensures refused { IfErr result (IsRefusedAs Refusal.Writing) }
{
    joined.join.abandon().map_err(stopped)?;
    write(joined)
}

/// Reports, with status 10, an assignment that satisfies the formula, after the lines of the files: its `s` line, and its `v` lines if
/// `witness`.
fn satisfied(
    alloc: Global,
    notes: &[u8],
    values: &Assignment,
    witness: bool,
) -> Result<Report, Refusal>
    ensures text { IfOk result (Prints 10 (notes.now ++ satisfied_lines values.now witness)) }
    ensures refused { IfErr result IsWanting }
{
    let mut report = Report::of(alloc, notes, 10).map_err(out_of_memory)?;
    let answer = Answer::Satisfiable(values);
    answer_lines(answer, witness, &mut report.stdout).map_err(out_of_memory)?;
    Ok(report)
}

/// The lines that are to be printed of the files so far, and the options that choose them.
pub(crate) struct Sheet<'a> {
    pub(crate) options: JoinOptions<'a>,
    /// The lines, one for each file that has one.
    pub(crate) notes: Vec<u8>,
    /// How many names were counted.
    pub(crate) count: u64,
}

impl Drop for Sheet<'_> {
    fn drop(self) {
        let Sheet {
            options: _,
            notes: _,
            count: _,
        } = self;
    }
}

/// Answers the note on a fault of this number: at the step `place` of a binary file, or at the line `place` of a text.
fn fault_note(is_binary: bool, place: u64, number: u8) -> Note
    ensures { result ≡ note_of is_binary place number }
{
    if is_binary {
        Note::StepFault {
            step: place,
            number,
        }
    } else {
        Note::Fault {
            line: place,
            number,
        }
    }
}

/// Appends a line for the last name that was counted: its count, the note and the name.
fn put_file_note(sheet: &mut Sheet<'_>, note: Note, name: &[u8]) -> Result<(), Refusal>
    ensures line { OnOk result (sheet.new.notes.items ≡ sheet.old.notes.items ++ note_text sheet.old.count note name.now) }
    ensures same { IsKept sheet.old sheet.new }
    ensures refused { IfErr result IsWanting }
{
    put_note(&mut sheet.notes, sheet.count, note, name).map_err(out_of_memory)
}

/// Appends the line of a file that closes no leaf, with the reason. Answers the report of the run
/// if the file is an answer that satisfies the formula.
fn tell_outcome(
    alloc: Global,
    sheet: &mut Sheet<'_>,
    ended: Ended,
    name: &[u8],
) -> Result<Option<Report>, Refusal>
    ensures tells { IfOk result (Tells sheet.old sheet.new.notes.items ended name.now) }
    ensures same { IsKept sheet.old sheet.new }
    ensures refused { IfErr result IsWanting }
{
    let Ended { end, is_binary } = ended;
    match end {
        FileOutcome::Closes => Ok(None),
        FileOutcome::ClosesNothing => {
            if !sheet.options.quiet {
                put_file_note(sheet, Note::ClosesNothing, name)?;
            }
            Ok(None)
        }
        FileOutcome::Refused { line, number } => {
            put_file_note(sheet, fault_note(is_binary, line, number), name)?;
            Ok(None)
        }
        FileOutcome::Satisfies(values) => {
            let report = satisfied(alloc, &sheet.notes, &values, sheet.options.witness)?;
            Ok(Some(report))
        }
    }
}

/// A join, and the lines that are to be printed of its files. It has no `Drop`.
pub(crate) struct Run<'a, D: Drafts> {
    pub(crate) joined: Joined<'a, D>,
    pub(crate) sheet: Sheet<'a>,
}

/// Ends a file that was read to its end, and appends its line. Answers the report of the run if the file is an answer that satisfies the
/// formula.
fn end_named_file<D: Drafts>(run: &mut Run<'_, D>, name: &[u8]) -> Result<Option<Report>, Refusal>
    ensures goes { (F : Cnf) (cubes : List Cube) (s : Gone) (bytes : List ℕ) → IsAt D.made F cubes s bytes (one_more s.count) run.old.joined.join run.old.joined.part run.old.sheet
        → IfOk result (Goes (λ t. IsAt D.made F cubes t [] t.count run.new.joined.join run.new.joined.part run.new.sheet)
        (ReadsFile F cubes run.old.sheet.options.quiet name.now bytes s) (AnswersBy F cubes run.old.sheet.options.witness bytes s)) }
    ensures same { OnOk result ((run.new.joined.disk ≡ run.old.joined.disk) × (run.new.sheet.options ≡ run.old.sheet.options)) }
    ensures refused { IfErr result (IsRefusedAs Refusal.Writing) }
{
    let ended = end_file(&mut run.joined)?;
    tell_outcome(run.joined.disk.alloc(), &mut run.sheet, ended, name)
}

/// Gives up a file that cannot be opened, or in which a read failed, and appends the line that says
/// so. If `refusal` is out of memory, that is the error instead.
fn skip_unread<D: Drafts>(
    run: &mut Run<'_, D>,
    refusal: Refusal,
    name: &[u8],
) -> Result<Option<Report>, Refusal>
    ensures goes { (F : Cnf) (cubes : List Cube) (s : Gone) (bytes : List ℕ) → IsAt D.made F cubes s bytes (one_more s.count) run.old.joined.join run.old.joined.part run.old.sheet
        → IfOk result (Goes (λ t. IsAt D.made F cubes t [] t.count run.new.joined.join run.new.joined.part run.new.sheet) (λ t. t ≡ without_file name.now s) (λ r. ⊥)) }
    ensures same { OnOk result ((run.new.joined.disk ≡ run.old.joined.disk) × (run.new.sheet.options ≡ run.old.sheet.options)) }
    ensures refused { IfErr result (IsRefusedAs Refusal.Writing) }
{
    if refusal == Refusal::NoMemory {
        return Err(Refusal::NoMemory);
    }
    abandon(&mut run.joined)?;
    put_file_note(&mut run.sheet, Note::Unread, name)?;
    Ok(None)
}

/// Joins the file that was opened under this name, and appends its line. Answers the report of the run if the file is an answer that
/// satisfies the formula.
fn join_opened<D: Drafts>(
    run: &mut Run<'_, D>,
    mut pieces: Pieces<D::Source>,
    name: &[u8],
) -> Result<Option<Report>, Refusal>
    ensures goes { (F : Cnf) (cubes : List Cube) (s : Gone) → IsAt D.made F cubes s [] (one_more s.count) run.old.joined.join run.old.joined.part run.old.sheet
        → IfOk result (Goes (λ t. IsAt D.made F cubes t [] t.count run.new.joined.join run.new.joined.part run.new.sheet)
        (TakesSome F cubes run.old.sheet.options.quiet (D.Source.remaining pieces.source) name.now s) (λ r. HoldsOf (D.Source.remaining pieces.source) (λ bytes. AnswersBy F cubes run.old.sheet.options.witness bytes s r))) }
    ensures same { OnOk result ((run.new.joined.disk ≡ run.old.joined.disk) × (run.new.sheet.options ≡ run.old.sheet.options)) }
    ensures refused { IfErr result (IsRefusedAs Refusal.Writing) }
{
    match feed_on(&mut pieces, &mut run.joined)? {
        Fed::Whole => end_named_file(run, name),
        Fed::Unread(refusal) => skip_unread(run, refusal, name),
    }
}

/// Whether a name leads to the file of the proof, or to the temporary file that becomes it.
fn is_own<D: Drafts>(run: &Run<'_, D>, name: &str) -> bool
    ensures { result ≡ false → IsFree (D.apart run.now.joined.disk.now) run.now.sheet.options.proof name.now }
{
    if let Some(part) = &run.joined.part {
        if run.joined.disk.leads_to(&part.draft, name) {
            return true;
        }
    }
    match &run.sheet.options.proof {
        Some(target) => run.joined.disk.is_same(target.path, name),
        None => false,
    }
}

/// Counts a name, joins its file, and appends its line. Answers the report of the run if the file is an answer that satisfies the formula.
/// It errs if the name leads to the file of the proof.
pub(crate) fn join_file<D: Drafts>(
    run: &mut Run<'_, D>,
    name: &str,
) -> Result<Option<Report>, Refusal>
    ensures goes { (F : Cnf) (cubes : List Cube) (s : Gone) → IsAt D.made F cubes s [] s.count run.old.joined.join run.old.joined.part run.old.sheet
        → IfOk result (Goes (λ t. IsAt D.made F cubes t [] t.count run.new.joined.join run.new.joined.part run.new.sheet)
        (Takes D.holds D.apart run.old.joined.disk.now run.old.sheet.options F cubes name.now s) (Stops D.holds D.apart run.old.joined.disk.now run.old.sheet.options F cubes name.now s)) }
    ensures same { OnOk result ((run.new.joined.disk ≡ run.old.joined.disk) × (run.new.sheet.options ≡ run.old.sheet.options)) }
    ensures refused { IfErr result (IsRefusedAs Refusal.Writing) }
{
    run.sheet.count = run.sheet.count.saturating_add(1);
    if is_own(run, name) {
        return Err(Refusal::Writing);
    }
    match run.joined.disk.open(name, Refusal::Proof) {
        Ok(pieces) => join_opened(run, pieces, name.as_bytes()),
        Err(refusal) => skip_unread(run, refusal, name.as_bytes()),
    }
}

/// Counts a name that no file can have, and appends the line that it cannot be read.
pub(crate) fn skip_name<D: Drafts>(
    run: &mut Run<'_, D>,
    name: &[u8],
) -> Result<Option<Report>, Refusal>
    ensures goes { (F : Cnf) (cubes : List Cube) (s : Gone) → IsAt D.made F cubes s [] s.count run.old.joined.join run.old.joined.part run.old.sheet
        → IfOk result (Goes (λ t. IsAt D.made F cubes t [] t.count run.new.joined.join run.new.joined.part run.new.sheet) (λ t. t ≡ without_file name.now s) (λ r. ⊥)) }
    ensures same { OnOk result ((run.new.joined.disk ≡ run.old.joined.disk) × (run.new.sheet.options ≡ run.old.sheet.options)) }
    ensures refused { IfErr result (IsRefusedAs Refusal.Writing) }
{
    run.sheet.count = run.sheet.count.saturating_add(1);
    skip_unread(run, Refusal::Proof, name)
}
