//! `join`: reads the files of any machines, and joins them to one proof, which is written meanwhile.

ghost use Rattle.std.specs.Prelude.{◌≡◌, ◌≢◌, ◌⊎◌, ◌++◌, ℕ, List, [], map, Option, IfOk, IfErr, IsOk, OnErr, OnOk};
ghost use Rattle.commands.specs.FormulaTree.{OfQuietTree};
ghost use Rattle.commands.specs.Names.{AreTaken, Gone, OfNames, none_gone};
ghost use Rattle.commands.specs.Join.{IsApart, IsStored, Joins, Misses, OneStops, Refutes, Stops, Takes};
ghost use Rattle.commands.specs.Known.{HoldsOf};
ghost use Rattle.commands.specs.Refusals.{IsRefusedAs, IsUnreadOrUnwritten, IsOneOf, IsWanting};
ghost use Rattle.commands.specs.declared.drafts.Target.{Target};
ghost use Rattle.commands.specs.declared.join_run.JoinOptions.{JoinOptions};
ghost use Rattle.commands.specs.inner.Join.{Goes, HasPart, IsAt, IsSettled};
ghost use Rattle.dimacs.specs.logic.Cnf.{Cnf};
ghost use Rattle.text_or_binary.specs.FormJoin.{HasReadFormFiles};
ghost use Rattle.icnf.specs.Leaves.{Cube};

use crate::drafts::{Drafts, Way};
use crate::file_names::{Through, go_through};
use crate::formula_tree::{Begun, begin_files, hushed};
use crate::join_run::{JoinOptions, Joined, Run, Sheet, stopped, write};
use crate::part_file::{Part, keep, part_of, remove};
use crate::whole_source::out_of_memory;
use dimacs::Limits;
use leaves::Split;
use reports::{Refusal, Report};
use std::alloc::Global;
use text_or_binary::FormJoin;

/// The files of `join` besides those that are joined: the two inputs, and, in the options, the file of the proof.
#[derive(Clone, Copy)]
pub struct JoinFiles<'a> {
    /// The path of the formula.
    pub input: &'a str,
    /// The path of the tree of its cubes.
    pub cubes: &'a str,
    /// The file of the proof, and what is printed.
    pub options: JoinOptions<'a>,
}

/// Ends a join after its last file, and appends the last bytes of the proof to its file. Reports that the formula is unsatisfiable, or
/// which leaves are open.
fn finish<D: Drafts>(run: &mut Run<'_, D>) -> Result<Report, Refusal>
    ensures ends { (F : Cnf) (cubes : List Cube) (s : Gone) → IsAt D.made F cubes s [] s.count run.old.joined.join run.old.joined.part run.old.sheet
        → IfOk result (λ r. Refutes (λ proof. HasPart D.made run.old.sheet.options.proof proof run.new.joined.part) F cubes s r ⊎ Misses (Unit {0}) F cubes s r) }
    ensures refused { IfErr result (IsRefusedAs Refusal.Writing) }
{
    let alloc = run.joined.disk.alloc();
    let notes = Vec::from_slice(alloc, &run.sheet.notes).map_err(out_of_memory)?;
    let report = run.joined.join.finish(notes).map_err(stopped)?;
    write(&mut run.joined)?;
    Ok(report)
}

/// Answers the report of a join: `found`, if a file is an answer that satisfies the formula; else
/// the join is ended, and has its own.
fn reported<D: Drafts>(run: &mut Run<'_, D>, found: Option<Report>) -> Result<Report, Refusal>
    ensures joins { (disk : D) (options : JoinOptions) (F : Cnf) (cubes : List Cube) (names : List (List ℕ))
        → Goes (λ t. IsAt D.made F cubes t [] t.count run.old.joined.join run.old.joined.part run.old.sheet)
        (AreTaken (Takes D.holds D.apart disk options F cubes) names none_gone)
        (OneStops (Takes D.holds D.apart disk options F cubes) (Stops D.holds D.apart disk options F cubes) names none_gone) found
        → IfOk result (Joins (Takes D.holds D.apart disk options F cubes) (Stops D.holds D.apart disk options F cubes) (λ proof. HasPart D.made run.old.sheet.options.proof proof run.new.joined.part) (Unit {0}) F cubes names) }
    ensures refused { IfErr result (IsRefusedAs Refusal.Writing) }
{
    match found {
        Some(report) => Ok(report),
        None => finish(run),
    }
}

/// The report of a join, and the unfinished file of its proof. It has no `Drop`: the file is kept
/// or removed by a call.
struct Outcome<E> {
    /// `None` if no proof is written.
    part: Option<Part<E>>,
    found: Result<Report, Refusal>,
}

/// Takes a run apart: answers this report with the unfinished file of the proof, which is kept or
/// removed by it.
fn outcome_of<D: Drafts>(run: Run<'_, D>, found: Result<Report, Refusal>) -> Outcome<D::Draft>
    ensures part { result.part ≡ run.entry.joined.part }
    ensures found { result.found ≡ found }
{
    let Run { joined, sheet: _ } = run;
    let Joined {
        disk: _,
        join: _,
        part,
    } = joined;
    Outcome { part, found }
}

/// Ends a join after the last of its names: answers its report, and the unfinished file of its
/// proof.
fn concluded<D: Drafts>(through: Through<'_, D>) -> Outcome<D::Draft>
    ensures joins { (disk : D) (options : JoinOptions) (F : Cnf) (cubes : List Cube) (known : List ℕ → Option (List ℕ)) (names : List (List ℕ))
        → IfOk through.entry.found (λ found. OfNames known names (λ all. Goes (λ t. IsAt D.made F cubes t [] t.count through.entry.run.joined.join through.entry.run.joined.part through.entry.run.sheet)
        (AreTaken (Takes D.holds D.apart disk options F cubes) all none_gone)
        (OneStops (Takes D.holds D.apart disk options F cubes) (Stops D.holds D.apart disk options F cubes) all none_gone) found))
        → IfOk result.found (λ r. OfNames known names (λ all. Joins (Takes D.holds D.apart disk options F cubes) (Stops D.holds D.apart disk options F cubes) (λ proof. HasPart D.made through.entry.run.sheet.options.proof proof result.part) (Unit {0}) F cubes all r)) }
    ensures found { OnOk result.found (IsOk through.entry.found) }
    ensures refused { IfErr through.entry.found (IsOneOf Refusal.Proof Refusal.Writing) → IfErr result.found (IsOneOf Refusal.Proof Refusal.Writing) }
{
    let Through { mut run, found } = through;
    match found {
        Ok(found) => {
            let report = reported(&mut run, found);
            outcome_of(run, report)
        }
        Err(refusal) => outcome_of(run, Err(refusal)),
    }
}

/// Joins the files of these names, or of those that standard input lists if `-` is the only one,
/// and appends the proof to `part`. Answers the report and the unfinished file of the proof.
fn join_names<D: Drafts>(
    disk: &D,
    join: FormJoin,
    part: Option<Part<D::Draft>>,
    options: JoinOptions<'_>,
    names: &[&str],
) -> Outcome<D::Draft>
    ensures joins { (F : Cnf) (cubes : List Cube) → HasReadFormFiles F cubes [] [] [] join → HasPart D.made options.entry.proof [] part
        → IfOk result.found (λ r. OfNames (D.holds disk.now) (map (λ n. n.now) names.now) (λ all. Joins (Takes D.holds D.apart disk.now options.entry F cubes) (Stops D.holds D.apart disk.now options.entry F cubes) (λ proof. HasPart D.made options.entry.proof proof result.part) (Unit {0}) F cubes all r)) }
    ensures refused { IfErr result.found (IsOneOf Refusal.Proof Refusal.Writing) }
{
    let sheet = Sheet {
        options,
        notes: Vec::new(disk.alloc()),
        count: 0,
    };
    let run = Run {
        joined: Joined { disk, join, part },
        sheet,
    };
    concluded(go_through(run, names))
}

/// Puts the file of the proof at its path, if a proof is written. It errs if that cannot be done.
fn keep_some<D: Drafts>(disk: &mut D, part: Option<Part<D::Draft>>) -> Result<(), Refusal>
    ensures kept { OnOk result ((target : Option Target) (proof : List ℕ) → HasPart D.made target proof part → IsStored D.kept disk.old disk.new target proof) }
    ensures left { OnErr result (disk.new ≡ disk.old) }
    ensures refused { IfErr result (IsRefusedAs Refusal.Writing) }
{
    match part {
        Some(part) => {
            if keep(disk, part)? {
                Ok(())
            } else {
                Err(Refusal::Writing)
            }
        }
        None => Ok(()),
    }
}

/// Removes the file of the proof, if one is written.
fn remove_some<D: Drafts>(disk: &D, part: Option<Part<D::Draft>>) {
    match part {
        Some(part) => remove(disk, part),
        None => {}
    }
}

/// Puts the file of the proof at its path if the status of the report is 20 (the formula is
/// refuted), and else removes it. Answers the report.
fn keep_if_closed<D: Drafts>(disk: &mut D, outcome: Outcome<D::Draft>) -> Result<Report, Refusal>
    ensures settled { IfOk result (IsSettled D.made D.kept disk.old disk.new outcome.part outcome.found) }
    ensures left { OnErr result (disk.new ≡ disk.old) }
    ensures refused { IfErr outcome.found (IsOneOf Refusal.Proof Refusal.Writing) → IfErr result (IsOneOf Refusal.Proof Refusal.Writing) }
{
    let Outcome { part, found } = outcome;
    match found {
        Ok(report) => {
            if report.status == 20 {
                keep_some(disk, part)?;
                return Ok(report);
            }
            remove_some(disk, part);
            Ok(report)
        }
        Err(refusal) => {
            remove_some(disk, part);
            Err(refusal)
        }
    }
}

/// Creates the file of the proof; `None` if none is asked for. It errs if its path leads to one of the two inputs, or if it cannot be
/// created beside that path.
fn begin_proof<D: Drafts>(
    disk: &D,
    files: &JoinFiles<'_>,
) -> Result<Option<Part<D::Draft>>, Refusal>
    ensures begins { IfOk result (HasPart D.made files.now.options.proof []) }
    ensures apart { OnOk result (IsApart D.apart disk.now files.now) }
    ensures refused { IfErr result (IsRefusedAs Refusal.Writing) }
{
    let Some(target) = files.options.proof else {
        return Ok(None);
    };
    if disk.is_same(target.path, files.input) || disk.is_same(target.path, files.cubes) {
        return Err(Refusal::Writing);
    }
    match disk.begin(target.path, Way::Beside)? {
        Some(draft) => Ok(Some(part_of(disk, draft, target.binary))),
        None => Err(Refusal::Writing),
    }
}

/// A join over a formula and the tree of its cubes that has read no file. It errs if memory runs out.
fn begin_join(alloc: Global, split: Split) -> Result<FormJoin, Refusal>
    ensures holds { IfOk result (HasReadFormFiles split.formula split.tree [] [] []) }
    ensures refused { IfErr result IsWanting }
{
    FormJoin::of(alloc, split).map_err(out_of_memory)
}

/// Runs a join over a formula and the tree of its cubes: joins the files of these names, and keeps
/// the proof if they close all leaves. Answers the report.
fn gather<D: Drafts>(
    disk: &mut D,
    files: &JoinFiles<'_>,
    names: &[&str],
    split: Split,
) -> Result<Report, Refusal>
    ensures joins { IfOk result (λ r. OfNames (D.holds disk.old) (map (λ n. n.now) names.now) (λ all. Joins (Takes D.holds D.apart disk.old files.now.options split.formula split.tree) (Stops D.holds D.apart disk.old files.now.options split.formula split.tree)
        (IsStored D.kept disk.old disk.new files.now.options.proof) (disk.new ≡ disk.old) split.formula split.tree all r)) }
    ensures dropped { IfOk result (λ r. r.status ≢ 20 → disk.new ≡ disk.old) }
    ensures apart { OnOk result (IsApart D.apart disk.old files.now) }
    ensures left { OnErr result (disk.new ≡ disk.old) }
    ensures refused { IfErr result (IsOneOf Refusal.Proof Refusal.Writing) }
{
    let join = begin_join(disk.alloc(), split)?;
    let part = begin_proof(disk, files)?;
    let outcome = join_names(disk, join, part, files.options, names);
    keep_if_closed(disk, outcome)
}

/// Joins the files of these names, or of those that standard input lists if `-` is the only one, to a proof of the formula in
/// `files.input`, and answers the report. The proof is written whole or not at all, and never over a file that is read. The formula and the
/// cubes are read within these limits.
pub fn join_files<D: Drafts>(
    disk: &mut D,
    limits: Limits,
    files: &JoinFiles<'_>,
    names: &[&str],
) -> Result<Report, Refusal>
    ensures joins { IfOk result (λ r. HoldsOf (D.holds disk.old files.now.input.now) (λ text. HoldsOf (D.holds disk.old files.now.cubes.now) (λ lines. OfQuietTree limits files.now.options.quiet text lines
        (λ F tree. OfNames (D.holds disk.old) (map (λ n. n.now) names.now) (λ all. Joins (Takes D.holds D.apart disk.old files.now.options F tree) (Stops D.holds D.apart disk.old files.now.options F tree)
        (IsStored D.kept disk.old disk.new files.now.options.proof) (disk.new ≡ disk.old) F tree all r)) r))) }
    ensures dropped { IfOk result (λ r. r.status ≢ 20 → disk.new ≡ disk.old) }
    ensures apart { IfOk result (λ r. r.status ≡ 20 → IsApart D.apart disk.old files.now) }
    ensures left { OnErr result (disk.new ≡ disk.old) }
    ensures refused { IfErr result IsUnreadOrUnwritten }
{
    let begun = begin_files(disk, limits, files.input, files.cubes)?;
    match begun {
        Begun::With(split) => gather(disk, files, names, split),
        Begun::Refused(report) => Ok(hushed(report, files.options.quiet)),
    }
}
