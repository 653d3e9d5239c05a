//! Complete fragments: each closes its leaf, and all are joined after the last leaf is closed.

ghost use Rattle.std.specs.Prelude.{◌≡◌, ℕ, ◌^◌, ◌<◌, ◌≤◌, List, length, map, Some, IfOk, IfErr};
ghost use Rattle.frames.specs.declared.answer.Answer.TheVariants as answers;
ghost use Rattle.frames.specs.Answers.{answer_of};
ghost use Rattle.lrat_text.specs.Log.{Closes};
ghost use Rattle.evidence.specs.Evidence.{IsComplete};
ghost use Rattle.coordinator_core.specs.inner.PrivateCalls.{IsFixed, ClosesIff, UnlessNoMemory};
ghost use Rattle.coordinator_core.specs.Coordinator.{CompletesFragment, ReceivesJobEvidence, coordinator_base, cube_at, job_at};
ghost use Rattle.coordinator_core.specs.declared.job_state.Fixed.{Fixed};
ghost use Rattle.coordinator_core.specs.declared.job_state.Job.{Job};

use crate::coordinator::Coordinator;
use crate::fragment_join::{front_or_new, join_rest};
use cube_split::base_or;
use frames::WorkerNumber;
use lrat_check::{Reaction, Verdict, check_packed_fragment};
use packed_text::PackedText;
use proof_join::JoinFault;
use std::alloc::AllocError;

impl Coordinator {
    /// Tells whether the fragment of the worker's job closes the cube of the job's leaf.
    fn closes(&self, worker: WorkerNumber) -> Result<bool, AllocError>
        ensures { (j : Job) (x : Fixed) → IsFixed self.now worker j x → IfOk result (ClosesIff self.now j.leaf x.evidence.bytes) }
    {
        match self.job_of(worker) {
            None => Err(AllocError),
            Some(job) => match &job.fixed {
                None => Err(AllocError),
                Some(fixed) => self.closes_leaf(worker, job.leaf, &fixed.evidence.bytes),
            },
        }
    }

    /// Tells whether a fragment closes the cube of this leaf, which is that of the worker's job.
    fn closes_leaf(
        &self,
        worker: WorkerNumber,
        leaf: usize,
        text: &PackedText,
    ) -> Result<bool, AllocError>
        requires { (j : Job) × (job_at self.now worker ≡ Some j) × (j.leaf ≡ leaf) }
        ensures { IfOk result (ClosesIff self.now leaf text.now) }
    {
        let base = base_or(&self.base, &self.formula);
        match check_packed_fragment(self.alloc, base, self.tree.cube(leaf), text) {
            Ok(()) => Ok(true),
            Err(fault) if fault.is_no_memory() => Err(AllocError),
            Err(_) => Ok(false),
        }
    }

    /// Checks the complete fragment of the worker's job. If the fragment does not close the leaf's cube, the leaf is opened again
    /// (`Refused(1)`).
    pub(crate) fn complete_fragment(&mut self, worker: WorkerNumber) -> Reaction
        requires whole { (j : Job) × (x : Fixed) × IsFixed self.old worker j x × IsComplete x.evidence × (answer_of x.evidence.finding ≡ answers.Refuted) }
        ensures { (j : Job) (x : Fixed) → IsFixed self.old worker j x → ReceivesJobEvidence self.old worker j x result self.new }
    {
        match self.closes(worker) {
            Ok(true) => self.close(worker),
            Ok(false) => {
                self.lost(worker);
                Reaction::Refused(1)
            }
            Err(_) => Reaction::NoMemory,
        }
    }

    /// Closes the leaf of the worker's job: moves the fragment to the table of leaves. After the
    /// last leaf all fragments are joined to the proof; if memory for that is refused, the fragment
    /// is moved back, so that nothing changes.
    fn close(&mut self, worker: WorkerNumber) -> Reaction
        requires closes { (j : Job) × (x : Fixed) × IsFixed self.old worker j x × Closes (coordinator_base self.old) (cube_at self.old j.leaf) x.evidence.bytes }
        ensures { (j : Job) (x : Fixed) → IsFixed self.old worker j x → UnlessNoMemory self.old result self.new (CompletesFragment self.old worker j x.evidence.bytes result self.new) }
    {
        let slot = worker.number() as usize - 1;
        let Some(mut job) = self.jobs[slot].take() else {
            return Reaction::NoMemory;
        };
        let leaf = job.leaf;
        let bytes = job.take_bytes(self.alloc);
        let before = self.leaves.close(leaf, bytes);
        if !self.leaves.are_closed() {
            return Reaction::Taken;
        }
        let held = self.front.take();
        let front = front_or_new(self.alloc, held, &self.formula, &self.preamble);
        match join_rest(
            front,
            &self.formula,
            &self.preamble,
            &self.tree,
            self.leaves.fragments(),
        ) {
            Ok(text) => {
                self.verdict = Verdict::Proof(text);
                return Reaction::Verdict;
            }
            Err(JoinFault::TooLong) => {
                self.stuck = true;
                return Reaction::Taken;
            }
            Err(JoinFault::NoMemory) => {}
        }
        job.give_bytes(self.leaves.give_back(leaf, worker, before));
        self.jobs[slot] = Some(job);
        Reaction::NoMemory
    }
}
