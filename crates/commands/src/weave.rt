//! `weave`: reads the logs of a cell twice, and writes the one log that they make meanwhile.

ghost use Rattle.std.specs.Prelude.{◌≡◌, ◌++◌, ◌∷◌, ℕ, List, [], true, false, codes, IfOk, IfErr, OnErr, OnOk, if◌then◌else◌};
ghost use Rattle.commands.specs.Known.{HoldsOf};
ghost use Rattle.commands.specs.Refusals.{IsRefusedAs};
ghost use Rattle.commands.specs.Trees.{OfTree};
ghost use Rattle.commands.specs.Weave.{AreNotes, OfInput, TellsWoven, Weaves};
ghost use Rattle.commands.specs.Written.{Keeps};
ghost use Rattle.commands.specs.inner.Parts.{Begins};
ghost use Rattle.commands.specs.inner.Weave.{EndsSo, HasPoured, HasTold, KeepsTold};
ghost use Rattle.dimacs.specs.logic.Cnf.{Cnf};
ghost use Rattle.leaves.specs.Leaf.{Prints};
ghost use Rattle.lrat_text.specs.Log.{Closes};
ghost use Rattle.weaving.specs.Woven.{HasWoven};

use crate::drafts::{Drafts, Target, Way};
use crate::filter::{Ending, keep_or_remove};
use crate::formula_tree::{Begun, begin_files, refused_input};
use crate::part_file::{Part, append, part_of, remove};
use crate::weave_notes::{put_fault, put_nothing, put_outcomes};
use crate::whole_source::{out_of_memory, read_formula};
use dimacs::{Formula, Limits, Lit};
use icnf::Tree;
use leaves::{Split, put_leaf};
use reports::{Refusal, Report};
use std::alloc::{AllocError, Global};
use weaving::{CellLogs, LogSource, Plan, Survey, WeaveFault, Weaver, survey_logs};

/// The files of a weaving besides the logs: those that are read, and one that is written.
#[derive(Clone, Copy)]
pub struct WeaveFiles<'a> {
    /// The path of the formula.
    pub input: &'a str,
    /// The file of the woven log.
    pub log: Target<'a>,
}

/// What a cell has searched.
#[derive(Clone, Copy)]
struct Searched<'a> {
    /// The formula.
    formula: &'a Formula,
    /// The tree into which it is split; if it is not split, the tree of one leaf.
    tree: &'a Tree,
    /// Whether it is split.
    is_split: bool,
    ghost single: { is_split ≡ false → tree.now ≡ [] ∷ [] },
}

/// The logs of a cell, and what is told of them so far.
#[derive(Drop)]
struct Told<'a, L> {
    logs: &'a L,
    notes: Vec<u8>,
}

/// The report of some notes, with status 1.
fn reported(notes: Vec<u8>) -> Report
    ensures { Prints 1 notes.items result }
{
    Report {
        stdout: notes,
        status: 1,
        proof: None,
    }
}

/// Reports that the logs close nothing.
fn nothing<L: CellLogs>(told: Told<'_, L>) -> Result<Report, Refusal>
    ensures { IfOk result (λ r. AreNotes told.entry.notes.items → (notes : List ℕ) × AreNotes notes × Prints 1 notes r) }
{
    let Told { logs: _, mut notes } = told;
    put_nothing(&mut notes).map_err(out_of_memory)?;
    Ok(reported(notes))
}

/// Reports why no log is woven. That a log cannot be read, or want of memory, is an error instead.
fn faulty<L: CellLogs>(told: Told<'_, L>, fault: WeaveFault) -> Result<Report, Refusal>
    ensures { IfOk result (λ r. AreNotes told.entry.notes.items → (notes : List ℕ) × AreNotes notes × Prints 1 notes r) }
{
    if let WeaveFault::Refused(refusal) = fault {
        return Err(refusal);
    }
    let Told { logs, mut notes } = told;
    put_fault(&mut notes, logs, fault).map_err(out_of_memory)?;
    Ok(reported(notes))
}

/// The status after one more leaf: it stays if the leaf is closed, and becomes 0 if not.
fn status_after(status: u8, is_closed: bool) -> u8
    ensures { result ≡ (if is_closed then status else 0) }
{
    if is_closed { status } else { 0 }
}

/// Appends a line for each leaf: whether the text that was woven closes it. Answers the status: 20 if it closes all, else 0.
fn put_leaves<S: LogSource + Drop>(
    out: &mut Vec<u8>,
    weaver: &Weaver<S>,
    tree: &Tree,
) -> Result<u8, AllocError>
    ensures { IfOk result (HasTold weaver.now tree.now out.old.items out.new.items) }
{
    let mut status = 20;
    for place in 0..tree.leaves() {
        let is_closed = weaver.closes(place, tree.cube(place));
        status = status_after(status, is_closed);
        put_leaf(out, place, is_closed)?;
    }
    Ok(status)
}

/// Reports behind the notes, of each leaf, whether the text that was woven closes it.
fn told_leaves<S: LogSource + Drop>(
    weaver: &Weaver<S>,
    tree: &Tree,
    mut notes: Vec<u8>,
) -> Result<Report, AllocError>
    ensures { IfOk result (λ r. (F : Cnf) (handed : List ℕ) → HasWoven F handed weaver.now.text → TellsWoven F (handed ++ weaver.now.text.out.items) tree.now true notes.items r) }
{
    let status = put_leaves(&mut notes, weaver, tree)?;
    Ok(Report {
        stdout: notes,
        status,
        proof: None,
    })
}

/// Reports behind the notes that the formula is unsatisfiable.
fn told_whole(mut notes: Vec<u8>) -> Result<Report, AllocError>
    ensures { IfOk result (Prints 20 (notes.items ++ codes "s UNSATISFIABLE\n")) }
{
    notes.extend_from_slice(b"s UNSATISFIABLE\n")?;
    Ok(Report {
        stdout: notes,
        status: 20,
        proof: None,
    })
}

/// Reports behind the notes what the text that was woven closes.
fn woven<S: LogSource + Drop>(
    weaver: &Weaver<S>,
    searched: &Searched<'_>,
    notes: Vec<u8>,
) -> Result<Report, AllocError>
    ensures { IfOk result (λ r. (F : Cnf) (handed : List ℕ) → HasWoven F handed weaver.now.text → (searched.now.is_split ≡ false → Closes F [] (handed ++ weaver.now.text.out.items))
        → TellsWoven F (handed ++ weaver.now.text.out.items) searched.now.tree.now searched.now.is_split notes.items r) }
{
    if searched.is_split {
        told_leaves(weaver, searched.tree, notes)
    } else {
        told_whole(notes)
    }
}

/// Weaves until the text closes the weaver's cube, and writes it but for its last bytes.
fn pour<D: Drafts, S: LogSource + Drop>(
    disk: &D,
    part: &mut Part<D::Draft>,
    weaver: &mut Weaver<S>,
) -> Result<(), WeaveFault>
    ensures poured { OnOk result ((F : Cnf) → HasWoven F [] weaver.old.text → HasPoured D.made F weaver.old.cube.items part.old part.new weaver.new) }
{
    'blocks: for _ in 0..u64::MAX {
        if !weaver.weave()? {
            return Ok(());
        }
        append(disk, part, weaver.written())?;
        weaver.forget();
    }
    Err(WeaveFault::Changed)
}

/// The cube that the last lemma of a plan closes.
fn last_cube(alloc: Global, tree: &Tree, plan: &Plan) -> Result<Vec<Lit>, AllocError>
    ensures { IfOk result (λ cube. tree.now ≡ [] ∷ [] → cube.items ≡ []) }
{
    let last = plan.last();
    if last >= tree.leaves() {
        return Ok(Vec::new(alloc));
    }
    let cube = Vec::from_slice(alloc, tree.cube(last))?;
    Ok(cube)
}

/// A weaver of a plan.
fn weaver_of<L: CellLogs>(
    alloc: Global,
    searched: &Searched<'_>,
    plan: Plan,
    logs: &L,
) -> Result<Weaver<L::Source>, WeaveFault>
    ensures woven { IfOk result (λ w. HasWoven searched.now.formula.now [] w.text) }
    ensures cube { IfOk result (λ w. searched.now.is_split ≡ false → w.cube.items ≡ []) }
{
    let cube = last_cube(alloc, searched.tree, &plan)?;
    let formula = searched.formula.copy()?;
    let weaver = Weaver::of(alloc, formula, cube, plan, logs)?;
    Ok(weaver)
}

/// Ends a weaving: the text is kept, and what it closes is reported.
fn kept<S: LogSource + Drop>(
    alloc: Global,
    weaver: &Weaver<S>,
    searched: &Searched<'_>,
    notes: Vec<u8>,
) -> Result<Ending, AllocError>
    ensures { IfOk result (λ e. (F : Cnf) (handed : List ℕ) → HasWoven F handed weaver.now.text → (searched.now.is_split ≡ false → Closes F [] (handed ++ weaver.now.text.out.items))
        → KeepsTold F handed searched.now.tree.now searched.now.is_split notes.items e) }
{
    let rest = Vec::from_slice(alloc, weaver.written())?;
    let report = woven(weaver, searched, notes)?;
    Ok(Ending::Kept { rest, report })
}

/// Weaves by a plan, and says how that ends: the text is kept; or it is dropped, if a lemma does not follow or the logs have changed.
fn weave_plan<D: Drafts, L: CellLogs>(
    disk: &D,
    part: &mut Part<D::Draft>,
    searched: &Searched<'_>,
    plan: Plan,
    told: Told<'_, L>,
) -> Result<Ending, Refusal>
    ensures { IfOk result (λ e. AreNotes told.entry.notes.items → EndsSo D.made searched.now.formula.now searched.now.tree.now searched.now.is_split part.old part.new e) }
{
    let alloc = disk.alloc();
    let mut weaver = match weaver_of(alloc, searched, plan, told.logs) {
        Ok(weaver) => weaver,
        Err(fault) => return Ok(Ending::Dropped(faulty(told, fault)?)),
    };
    match pour(disk, part, &mut weaver) {
        Ok(()) => {
            let Told { logs: _, notes } = told;
            match kept(alloc, &weaver, searched, notes) {
                Ok(ending) => Ok(ending),
                Err(_) => Err(Refusal::NoMemory),
            }
        }
        Err(fault) => Ok(Ending::Dropped(faulty(told, fault)?)),
    }
}

/// Errs if two paths lead to one file.
fn test_apart<D: Drafts>(disk: &D, path: &str, other: &str) -> Result<(), Refusal>
    ensures apart { OnOk result (D.apart disk.now path.now other.now) }
    ensures refused { IfErr result (IsRefusedAs Refusal.Writing) }
{
    if disk.is_same(path, other) {
        Err(Refusal::Writing)
    } else {
        Ok(())
    }
}

/// Creates the file of the log. It errs if it cannot be created beside its path.
fn begin_log<D: Drafts>(disk: &D, log: Target<'_>) -> Result<Part<D::Draft>, Refusal>
    ensures begins { IfOk result (Begins D.made log.entry.binary log.entry.path.now) }
    ensures refused { IfErr result (IsRefusedAs Refusal.Writing) }
{
    match disk.begin(log.path, Way::Beside)? {
        Some(draft) => Ok(part_of(disk, draft, log.binary)),
        None => Err(Refusal::Writing),
    }
}

/// Weaves by a plan, and writes the log, whole or not at all.
fn write_plan<D: Drafts, L: CellLogs>(
    disk: &mut D,
    log: Target<'_>,
    searched: &Searched<'_>,
    plan: Plan,
    told: Told<'_, L>,
) -> Result<Report, Refusal>
    ensures weaves { IfOk result (λ r. AreNotes told.entry.notes.items → Weaves (Keeps D.kept disk.old disk.new log.entry.binary log.entry.path.now) (disk.new ≡ disk.old) searched.now.formula.now searched.now.tree.now searched.now.is_split r) }
    ensures left { OnErr result (disk.new ≡ disk.old) }
{
    let mut part = begin_log(disk, log)?;
    match weave_plan(disk, &mut part, searched, plan, told) {
        Ok(ending) => {
            let report = keep_or_remove(disk, part, ending)?;
            Ok(report)
        }
        Err(refusal) => {
            remove(disk, part);
            Err(refusal)
        }
    }
}

/// The cubes of a tree.
fn cubes_of<'a>(alloc: Global, tree: &'a Tree) -> Result<Vec<&'a [Lit]>, AllocError> {
    let mut cubes = Vec::new(alloc);
    for place in 0..tree.leaves() {
        cubes.push(tree.cube(place))?;
    }
    Ok(cubes)
}

/// Reads the logs of a cell for the first time.
fn surveyed<L: CellLogs>(
    alloc: Global,
    searched: &Searched<'_>,
    logs: &L,
) -> Result<Survey, WeaveFault> {
    let cubes = cubes_of(alloc, searched.tree)?;
    survey_logs(alloc, searched.formula, &cubes, logs)
}

/// What is told of the logs after they were read for the first time.
fn told_of<'a, L: CellLogs>(
    alloc: Global,
    logs: &'a L,
    survey: &Survey,
) -> Result<Told<'a, L>, AllocError>
    ensures { IfOk result (λ told. AreNotes told.notes.items) }
{
    let mut notes = Vec::new(alloc);
    put_outcomes(&mut notes, logs, &survey.logs)?;
    Ok(Told { logs, notes })
}

/// Weaves the logs of a cell.
fn weave_cell<D: Drafts, L: CellLogs>(
    disk: &mut D,
    log: Target<'_>,
    searched: &Searched<'_>,
    logs: &L,
) -> Result<Report, Refusal>
    ensures weaves { IfOk result (Weaves (Keeps D.kept disk.old disk.new log.entry.binary log.entry.path.now) (disk.new ≡ disk.old) searched.now.formula.now searched.now.tree.now searched.now.is_split) }
    ensures left { OnErr result (disk.new ≡ disk.old) }
{
    let alloc = disk.alloc();
    match surveyed(alloc, searched, logs) {
        Ok(survey) => {
            let told = match told_of(alloc, logs, &survey) {
                Ok(told) => told,
                Err(_) => return Err(Refusal::NoMemory),
            };
            let Survey { logs: _, plan } = survey;
            match plan {
                Some(plan) => {
                    let report = write_plan(disk, log, searched, plan, told)?;
                    Ok(report)
                }
                None => {
                    let none = nothing(told)?;
                    Ok(none)
                }
            }
        }
        Err(fault) => {
            let notes = Vec::new(alloc);
            let refused = faulty(Told { logs, notes }, fault)?;
            Ok(refused)
        }
    }
}

/// Weaves the logs of a cell over a formula that is not split.
fn weave_whole<D: Drafts, L: CellLogs>(
    disk: &mut D,
    log: Target<'_>,
    formula: &Formula,
    logs: &L,
) -> Result<Report, Refusal>
    ensures weaves { IfOk result (Weaves (Keeps D.kept disk.old disk.new log.entry.binary log.entry.path.now) (disk.new ≡ disk.old) formula.now ([] ∷ []) false) }
    ensures left { OnErr result (disk.new ≡ disk.old) }
{
    let tree = Tree::leaf(disk.alloc()).map_err(out_of_memory)?;
    let searched = Searched {
        formula,
        tree: &tree,
        is_split: false,
    };
    weave_cell(disk, log, &searched, logs)
}

/// Weaves the logs of a cell over the formula in `files.input`, which is read within these limits, to one log that closes the whole formula,
/// and answers the report. The log is written whole or not at all.
pub fn weave_files<D: Drafts, L: CellLogs>(
    disk: &mut D,
    limits: Limits,
    files: &WeaveFiles<'_>,
    logs: &L,
) -> Result<Report, Refusal>
    ensures weaves { IfOk result (λ r. HoldsOf (D.holds disk.old files.now.input.now) (λ text. OfInput limits text (λ F. Weaves (Keeps D.kept disk.old disk.new files.now.log.binary files.now.log.path.now) (disk.new ≡ disk.old) F ([] ∷ []) false r) r)) }
    ensures apart { OnOk result (D.apart disk.old files.now.log.path.now files.now.input.now) }
    ensures left { OnErr result (disk.new ≡ disk.old) }
{
    test_apart(disk, files.log.path, files.input)?;
    let mut text = disk.open(files.input, Refusal::Input)?;
    let found = read_formula(disk.alloc(), limits, &mut text)?;
    match found {
        Ok(formula) => {
            let report = weave_whole(disk, files.log, &formula, logs)?;
            Ok(report)
        }
        Err(fault) => {
            let refused = refused_input(disk.alloc(), fault)?;
            Ok(refused)
        }
    }
}

/// Weaves the logs of a cell over a formula that is split.
fn weave_split<D: Drafts, L: CellLogs>(
    disk: &mut D,
    log: Target<'_>,
    split: &Split,
    logs: &L,
) -> Result<Report, Refusal>
    ensures weaves { IfOk result (Weaves (Keeps D.kept disk.old disk.new log.entry.binary log.entry.path.now) (disk.new ≡ disk.old) split.now.formula split.now.tree true) }
    ensures left { OnErr result (disk.new ≡ disk.old) }
{
    let searched = Searched {
        formula: split.formula(),
        tree: split.tree(),
        is_split: true,
    };
    weave_cell(disk, log, &searched, logs)
}

/// Weaves the logs of a cell over the formula in `files.input` to one log that closes as many leaves of the tree in the file `cubes` as the
/// logs close, and answers the report. The log is written whole or not at all. Both files are read within these limits.
pub fn weave_leaf_files<D: Drafts, L: CellLogs>(
    disk: &mut D,
    limits: Limits,
    files: &WeaveFiles<'_>,
    cubes: &str,
    logs: &L,
) -> Result<Report, Refusal>
    ensures weaves { IfOk result (λ r. HoldsOf (D.holds disk.old files.now.input.now) (λ text. HoldsOf (D.holds disk.old cubes.now) (λ lines. OfTree limits text lines (λ F tree. Weaves (Keeps D.kept disk.old disk.new files.now.log.binary files.now.log.path.now) (disk.new ≡ disk.old) F tree true r) r))) }
    ensures apart { OnOk result (D.apart disk.old files.now.log.path.now files.now.input.now × D.apart disk.old files.now.log.path.now cubes.now) }
    ensures left { OnErr result (disk.new ≡ disk.old) }
{
    test_apart(disk, files.log.path, files.input)?;
    test_apart(disk, files.log.path, cubes)?;
    let begun = begin_files(disk, limits, files.input, cubes)?;
    match begun {
        Begun::With(split) => {
            let report = weave_split(disk, files.log, &split, logs)?;
            Ok(report)
        }
        Begun::Refused(report) => Ok(report),
    }
}
