//! Who is shown how far an elaboration has come.

/// What an elaboration does with the steps of its proof.
#[derive(Clone, Copy, Debug, PartialEq, Eq)]
pub enum Phase {
    /// It reads them; how many there are is not known.
    Reading,
    /// It replays them, with propagation at the root alone.
    Forward,
    /// It undoes them, the last one first, and checks the needed ones.
    Backward,
}

/// How far an elaboration has come.
#[derive(Clone, Copy, Debug, PartialEq, Eq)]
pub struct Stage {
    pub phase: Phase,
    /// The steps that are done in this phase.
    pub done: u64,
    /// The steps that there are in this phase, or that are known so far.
    pub steps: u64,
}

/// Who is shown how far an elaboration has come, every 256 steps. Nothing comes back, so it changes neither the outcome nor the proof.
pub trait ElaborationObserver {
    /// Takes note of the stage.
    fn see(&mut self, stage: &Stage);
}

/// An observer that takes note of nothing.
#[derive(Clone, Copy, Debug, PartialEq, Eq)]
pub struct Unobserved;

impl ElaborationObserver for Unobserved {
    /// Takes note of nothing.
    fn see(&mut self, _stage: &Stage) {}
}

/// How many steps lie between two stages that are shown.
const EACH: usize = 256;

/// Shows that a phase has done so many of its steps, if they are a multiple of 256.
#[inline(always)]
pub(crate) fn show<O: ElaborationObserver>(
    observer: &mut O,
    phase: Phase,
    done: usize,
    steps: usize,
) {
    if done % EACH == 0 {
        observer.see(&Stage {
            phase,
            done: done as u64,
            steps: steps as u64,
        });
    }
}
