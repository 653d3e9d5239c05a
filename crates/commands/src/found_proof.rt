//! A proof that goes to its file while it is found.

ghost use Rattle.std.specs.Prelude.{◌≡◌, ◌++◌, ℕ, List, [], None, IfOk, IfErr, IfSome, OnErr, OnOk};
ghost use Rattle.commands.specs.Refusals.{IsRefusedAs};
ghost use Rattle.commands.specs.Written.{Keeps};
ghost use Rattle.commands.specs.declared.drafts.Target.{Target};
ghost use Rattle.commands.specs.inner.FoundProof.{HasText};
ghost use Rattle.commands.specs.inner.Parts.{Begins};

use crate::atomic_write::{append_packed, write_text};
use crate::drafts::{Drafts, Target, Way};
use crate::part_file::{Part, keep, part_of, remove};
use formula_search::{KeptText, LogSink};
use packed_text::PackedText;
use reports::Refusal;
use std::alloc::Global;
use std::mem;

/// How many bytes of a proof wait in memory before its file is begun.
const ROOM: usize = 1 << 20;

/// The lines of a proof that were found: in memory, or in the file once that is begun. It has no `Drop`: it is kept or given up by a call.
pub(crate) struct FoundProof<F> {
    /// The lines, as long as there is no file.
    pub(crate) held: KeptText,
    /// The file.
    pub(crate) part: Option<Part<F>>,
    /// How the file is written.
    pub(crate) way: Way,
}

/// A proof before its first line.
pub(crate) fn none_found<F>(alloc: Global) -> FoundProof<F>
    ensures held { result.held.text ≡ [] }
    ensures part { result.part ≡ None }
{
    FoundProof {
        held: KeptText::new(alloc),
        part: None,
        way: Way::Beside,
    }
}

/// Appends lines of the proof.
fn put<D: Drafts>(
    disk: &D,
    proof: &mut FoundProof<D::Draft>,
    text: &PackedText,
) -> Result<(), Refusal>
    ensures written { OnOk result ((target : Target) (before : List ℕ) → HasText D.made target before proof.old.part proof.old.held.text → HasText D.made target (before ++ text.now) proof.new.part proof.new.held.text) }
    ensures refused { IfErr result (IsRefusedAs Refusal.Writing) }
{
    match &mut proof.part {
        Some(part) => append_packed(disk, part, text),
        None => proof.held.put(text),
    }
}

/// Gives up a file, if there is one.
fn give_up_file<D: Drafts>(disk: &D, part: Option<Part<D::Draft>>) {
    match part {
        Some(part) => remove(disk, part),
        None => {}
    }
}

/// Gives up a proof.
pub(crate) fn give_up<D: Drafts>(disk: &D, proof: FoundProof<D::Draft>) {
    let FoundProof {
        held: _,
        part,
        way: _,
    } = proof;
    give_up_file(disk, part);
}

/// Drops the lines of the proof. It errs if they went to a device or a pipe.
fn empty<D: Drafts>(disk: &D, proof: &mut FoundProof<D::Draft>) -> Result<(), Refusal>
    ensures emptied { OnOk result ((target : Target) → HasText D.made target [] proof.new.part proof.new.held.text) }
    ensures refused { IfErr result (IsRefusedAs Refusal.Writing) }
{
    if proof.part.is_some() && proof.way == Way::InPlace {
        return Err(Refusal::Writing);
    }
    give_up_file(disk, proof.part.take());
    proof.held = KeptText::new(disk.alloc());
    Ok(())
}

/// Creates the file of a target in this way; `None` if it cannot be created so.
fn create_by<D: Drafts>(
    disk: &D,
    target: Target<'_>,
    way: Way,
) -> Result<Option<Part<D::Draft>>, Refusal>
    ensures begins { IfOk result (λ found. IfSome found (Begins D.made target.entry.binary target.entry.path.now)) }
    ensures refused { IfErr result (IsRefusedAs Refusal.Writing) }
{
    match disk.begin(target.path, way)? {
        Some(draft) => Ok(Some(part_of(disk, draft, target.binary))),
        None => Ok(None),
    }
}

/// A file that was created, and how it is written.
struct Created<F> {
    part: Part<F>,
    way: Way,
}

/// Creates the file of a target: a temporary file beside its path, or, if the path leads to a device or a pipe, that. It errs if neither can
/// be done.
fn create<D: Drafts>(disk: &D, target: Target<'_>) -> Result<Created<D::Draft>, Refusal>
    ensures begins { IfOk result (λ created. Begins D.made target.entry.binary target.entry.path.now created.part) }
    ensures refused { IfErr result (IsRefusedAs Refusal.Writing) }
{
    let way = Way::Beside;
    if let Some(part) = create_by(disk, target, way)? {
        return Ok(Created { part, way });
    }
    let way = Way::InPlace;
    match create_by(disk, target, way)? {
        Some(part) => Ok(Created { part, way }),
        None => Err(Refusal::Writing),
    }
}

/// Begins the file of a proof, and moves the lines there that are held in memory.
fn begin<D: Drafts>(
    disk: &D,
    target: Target<'_>,
    proof: &mut FoundProof<D::Draft>,
) -> Result<(), Refusal>
    ensures begun { OnOk result (HasText D.made target.entry proof.old.held.text proof.new.part proof.new.held.text) }
    ensures refused { IfErr result (IsRefusedAs Refusal.Writing) }
{
    let Created { part, way } = create(disk, target)?;
    proof.way = way;
    let before = mem::replace(&mut proof.part, Some(part));
    give_up_file(disk, before);
    let held = mem::replace(&mut proof.held, KeptText::new(disk.alloc()));
    put(disk, proof, &held.into_text())
}

/// Begins the file of a proof if there is none, and much waits for it.
fn begin_if_due<D: Drafts>(
    disk: &D,
    target: Target<'_>,
    proof: &mut FoundProof<D::Draft>,
) -> Result<(), Refusal>
    ensures stays { OnOk result ((text : List ℕ) → HasText D.made target.entry text proof.old.part proof.old.held.text → HasText D.made target.entry text proof.new.part proof.new.held.text) }
    ensures refused { IfErr result (IsRefusedAs Refusal.Writing) }
{
    if proof.part.is_some() || proof.held.len() <= ROOM {
        return Ok(());
    }
    begin(disk, target, proof)
}

/// Takes the lines of a proof, and writes them to its file as they are found.
pub(crate) struct ProofSink<'a, D: Drafts> {
    pub(crate) disk: &'a D,
    pub(crate) target: Target<'a>,
    /// Whether the lines may go to the file.
    pub(crate) is_settled: bool,
    pub(crate) proof: FoundProof<D::Draft>,
}

impl<D: Drafts> LogSink for ProofSink<'_, D> {
    ghost use Rattle.commands.specs.inner.FoundProof.{HasText};

    ghost has = { λ sink text. HasText D.made sink.target text sink.proof.part sink.proof.held.text };

    /// Appends the lines. Once the sink is settled, they go to the file as soon as they are many.
    fn put(&mut self, text: &PackedText) -> Result<(), Refusal> {
        put(self.disk, &mut self.proof, text)?;
        if self.is_settled {
            begin_if_due(self.disk, self.target, &mut self.proof)?;
        }
        Ok(())
    }

    /// Drops the lines; a temporary file is removed. It errs if they went to a device or a pipe.
    fn empty(&mut self) -> Result<(), Refusal> {
        empty(self.disk, &mut self.proof)
    }

    /// From here on lines may go to the file.
    fn settle(&mut self) -> Result<(), Refusal> {
        self.is_settled = true;
        Ok(())
    }
}

/// Puts a proof at the path of its target, whole.
pub(crate) fn keep_found<D: Drafts>(
    disk: &mut D,
    target: Target<'_>,
    proof: FoundProof<D::Draft>,
) -> Result<(), Refusal>
    ensures kept { OnOk result ((text : List ℕ) → HasText D.made target.entry text proof.part proof.held.text → Keeps D.kept disk.old disk.new target.entry.binary target.entry.path.now text) }
    ensures left { OnErr result (disk.new ≡ disk.old) }
    ensures refused { IfErr result (IsRefusedAs Refusal.Writing) }
{
    let FoundProof { held, part, way: _ } = proof;
    let Some(part) = part else {
        return write_text(disk, target, &held.into_text());
    };
    if keep(disk, part)? {
        Ok(())
    } else {
        Err(Refusal::Writing)
    }
}
