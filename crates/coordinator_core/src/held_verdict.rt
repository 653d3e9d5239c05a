//! The verdict that a coordinator holds, and whether the coordinator is stuck.

ghost use Rattle.std.specs.Prelude.{◌≡◌, ◌<◌, ◌^◌, ◌↔◌, IsTrue, length, true};
ghost use Rattle.lrat_check.specs.Verdicts.{Right};
ghost use Rattle.evidence.specs.Evidence.{bytes_in};
ghost use Rattle.coordinator_core.specs.Coordinator.{IsDeciding};
ghost use Rattle.coordinator_core.specs.Invariant.{IsCoordinator};

use crate::coordinator::Coordinator;
use lrat_check::Verdict;

impl Coordinator {
    /// Tells whether the coordinator is stuck: a leaf whose search met its limit cannot be split, or the joined proof is too long. Only a
    /// restart or added clauses change that.
    #[inline]
    pub fn stuck(&self) -> bool
        ensures { result ≡ self.now.stuck }
    {
        self.stuck
    }

    /// Returns the verdict that is held; `Verdict::Nothing` if none is. It takes no memory.
    pub fn verdict(&self) -> &Verdict
        ensures value { result.now ≡ self.now.verdict }
        ensures right { Right self.now.formula result.now }
        ensures sound { IsCoordinator self.now }
    {
        &self.verdict
    }

    /// Tells whether no verdict is held and the coordinator is not stuck.
    pub(crate) fn is_deciding(&self) -> bool
        ensures { IsTrue result ↔ IsDeciding self.now }
    {
        match self.verdict {
            Verdict::Nothing => !self.stuck,
            _ => false,
        }
    }

    /// Makes the coordinator stuck: no verdict will be found until a restart.
    pub(crate) fn give_up(&mut self)
        requires { IsDeciding self.old }
        ensures { self.new ≡ record self.old { stuck = true } }
    {
        self.stuck = true;
    }

    /// Holds this verdict, which is right for the formula. It is handed out to the workers from
    /// then on.
    pub(crate) fn decide(&mut self, verdict: Verdict)
        requires deciding { IsDeciding self.old }
        requires right { Right self.old.formula verdict }
        requires short { length (bytes_in verdict) < 2 ^ 32 }
        ensures { self.new ≡ record self.old { verdict = verdict } }
    {
        self.verdict = verdict;
    }
}
