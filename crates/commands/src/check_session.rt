//! `check --session`: checks a proof beside the events of its session, while both files are read.

ghost use Rattle.std.specs.Prelude.{◌≡◌, ℕ, List, Option, IfOk, IfErr, OnOk};
ghost use Rattle.commands.specs.Known.{HoldsOf};
ghost use Rattle.commands.specs.Refusals.{IsRefusedAs, IsOneOf};
ghost use Rattle.commands.specs.inner.Texts.{IsRead, left};
ghost use Rattle.dimacs.specs.logic.Limits.{Limits};
ghost use Rattle.sessions.specs.Check.{wanted};
ghost use Rattle.sessions.specs.Reports.{AnswersRight, ChecksSession};

use crate::disk::Disk;
use crate::pending_text::Text;
use dimacs::Limits;
use reports::{Refusal, Report};
use sessions::{SessionCheck, Wants, check_report};
use std::alloc::Global;
use std::io::Read;

/// Feeds the check the buffered bytes of the proof, after a read if none is buffered. At the end of the proof it ends the check's proof. It
/// errs if the read fails.
fn feed_proof<S: Read + Drop>(check: &mut SessionCheck, proof: &mut Text<S>) -> Result<(), Refusal>
    ensures read { (L : Limits) (e p l : Option (List ℕ)) → IsRead L e p l (left S.remaining proof.old) check.old → OnOk result (IsRead L e p l (left S.remaining proof.new) check.new) }
    ensures refused { IfErr result (IsRefusedAs proof.old.pieces.refusal) }
    ensures refusal { proof.new.pieces.refusal ≡ proof.old.pieces.refusal }
{
    proof.fill()?;
    if proof.held().is_empty() {
        check.end_proof();
    } else {
        let taken = check.feed_proof(proof.held());
        proof.take(taken);
    }
    Ok(())
}

/// Feeds the check the buffered bytes of the events, after a read if none is buffered. At the end of the events it ends the check's events.
/// It errs if the read fails.
fn feed_events<S: Read + Drop>(
    check: &mut SessionCheck,
    events: &mut Text<S>,
) -> Result<(), Refusal>
    ensures read { (L : Limits) (e p l : Option (List ℕ)) → IsRead L e p (left S.remaining events.old) l check.old → OnOk result (IsRead L e p (left S.remaining events.new) l check.new) }
    ensures refused { IfErr result (IsRefusedAs events.old.pieces.refusal) }
    ensures refusal { events.new.pieces.refusal ≡ events.old.pieces.refusal }
{
    events.fill()?;
    if events.held().is_empty() {
        check.end_events();
    } else {
        let taken = check.feed_events(events.held());
        events.take(taken);
    }
    Ok(())
}

/// Feeds the check bytes of the proof or of the events, whichever it asks for, until it asks for nothing more. It errs if a read fails.
fn feed<E: Read + Drop, P: Read + Drop>(
    check: &mut SessionCheck,
    events: &mut Text<E>,
    proof: &mut Text<P>,
) -> Result<(), Refusal>
    ensures read { (L : Limits) (e p : Option (List ℕ)) → IsRead L e p (left E.remaining events.old) (left P.remaining proof.old) check.old
        → OnOk result (IsRead L e p (left E.remaining events.new) (left P.remaining proof.new) check.new) }
    ensures settled { OnOk result (wanted check.new ≡ Wants.Nothing) }
    ensures refused { IfErr result (IsOneOf events.old.pieces.refusal proof.old.pieces.refusal) }
{
    for _ in 0..u64::MAX {
        match check.wants() {
            Wants::Proof => feed_proof(check, proof)?,
            Wants::Events => feed_events(check, events)?,
            Wants::Nothing => return Ok(()),
        }
    }
    Err(proof.pieces.refusal)
}

/// Checks a proof beside the events of its session, which are read within these limits, and reports the result. No piece of a text is read
/// before the check asks for it.
fn check_texts<E: Read + Drop, P: Read + Drop>(
    alloc: Global,
    limits: Limits,
    mut events: Text<E>,
    mut proof: Text<P>,
) -> Result<Report, Refusal>
    ensures report { IfOk result (λ r. HoldsOf (left E.remaining events) (λ text. HoldsOf (left P.remaining proof) (λ bytes. ChecksSession limits text bytes r))) }
    ensures refused { IfErr result (IsOneOf events.pieces.refusal proof.pieces.refusal) }
{
    match SessionCheck::within(alloc, limits) {
        Ok(mut check) => {
            feed(&mut check, &mut events, &mut proof)?;
            check_report(alloc, &check)
        }
        Err(_) => Err(Refusal::NoMemory),
    }
}

/// Checks the proof in the file `proof` beside the events in the file `events`, and reports the result. No piece of a file is read before
/// the check asks for it, since both may be pipes of a session that still runs. The events are read within these limits.
pub fn check_session_files<D: Disk>(
    disk: &D,
    limits: Limits,
    events: &str,
    proof: &str,
) -> Result<Report, Refusal>
    ensures report { IfOk result (λ r. HoldsOf (D.holds disk.now events.now) (λ text. HoldsOf (D.holds disk.now proof.now) (λ bytes. ChecksSession limits text bytes r))) }
    ensures truth { IfOk result (λ r. HoldsOf (D.holds disk.now events.now) (λ text. r.status ≡ 0 → AnswersRight limits text r)) }
    ensures refused { IfErr result (IsOneOf Refusal.Input Refusal.Proof) }
{
    let text = disk.open(events, Refusal::Input)?;
    let bytes = disk.open(proof, Refusal::Proof)?;
    check_texts(disk.alloc(), limits, Text::of(text), Text::of(bytes))
}
