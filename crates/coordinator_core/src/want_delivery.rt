//! The delivery of Want frames: workers ask for bytes of the verdict.

ghost use Rattle.std.specs.Prelude.{◌≡◌, ◌<◌, ◌-◌, ◌↔◌, IsTrue, length, slice_set, Some};
ghost use Rattle.evidence.specs.Evidence.{bytes_in};
ghost use Rattle.coordinator_core.specs.Coordinator.{DeliversWant, HasWantedByte, IsWorker};

use crate::coordinator::Coordinator;
use frames::WorkerNumber;
use lrat_check::{Reaction, Verdict};

/// Returns the length in bytes of a verdict's evidence; 0 without a verdict.
pub(crate) fn length_of(verdict: &Verdict) -> usize
    ensures { result ≡ length (bytes_in verdict.now) }
{
    match verdict {
        Verdict::Nothing => 0,
        Verdict::Model(assignment) => assignment.len(),
        Verdict::Proof(text) => text.len(),
    }
}

impl Coordinator {
    /// Tells whether a verdict is held that has a byte at this offset, and session and worker are of this coordinator.
    fn has_wanted_byte(&self, session: u64, worker: WorkerNumber, offset: u32) -> bool
        ensures { IsTrue result ↔ HasWantedByte self.now session worker offset }
    {
        session == self.session
            && worker.number() as usize <= self.jobs.len()
            && (offset as usize) < length_of(&self.verdict)
    }

    /// Takes a Want frame: notes its offset, so that the next poll for the worker sends the
    /// verdict's bytes from that offset on. Ignored if there is no such byte.
    pub(crate) fn deliver_want(
        &mut self,
        session: u64,
        worker: WorkerNumber,
        offset: u32,
    ) -> Reaction
        ensures { DeliversWant self.old session worker offset result self.new }
    {
        if !self.has_wanted_byte(session, worker, offset) {
            return Reaction::Ignored;
        }
        self.note_want(worker, offset);
        Reaction::Taken
    }

    /// Notes the offset of a worker's Want, in place of an earlier one.
    fn note_want(&mut self, worker: WorkerNumber, offset: u32)
        requires known { IsWorker self.old worker }
        requires within { offset < length (bytes_in self.old.verdict) }
        ensures { self.new ≡ record self.old { wants = slice_set self.old.wants (worker - 1) (Some offset) } }
    {
        let slot = worker.number() as usize - 1;
        self.wants[slot] = Some(offset);
    }
}
