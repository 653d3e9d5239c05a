//! Modes of a search: focused and stable phases by turns, and the restarts and rephasings of each (Biere and Fröhlich 2019).
//!
//! No promise rests on the answers of this file.

use crate::luby::Luby;
use crate::moving_average::MovingAverage;
use crate::saved_phases::Rephase;

/// The length of the first phase, in conflicts. The ticks in it are the unit by which later phases are measured.
const FIRST_PHASE: u64 = 1000;

/// The fewest conflicts between two restarts of a focused phase.
const BETWEEN_RESTARTS: u64 = 2;

/// A focused phase restarts if the fast average of LBDs is above this percentage of the slow one.
const MARGIN: u64 = 110;

/// This many conflicts of a stable phase count as one for the Luby sequence, whose terms are times 100: so restarts come after 1,000 times
/// the terms.
const STABLE_UNIT: u64 = 10;

/// A formula is dense if it has at least this many clauses a variable. Formulas of circuits have fewer.
const DENSE: u64 = 4;

/// Conflicts are shallow if their level is at most this one, on average.
const SHALLOW: u64 = 50;

/// Lemmas are wide if the sum of their LBDs is at least the sum of their conflicts' levels, divided by this number.
const WIDE_PART: u64 = 4;

/// Rephasing number n comes n times this many conflicts after the last one.
const BETWEEN_REPHASINGS: u64 = 1000;

/// The next step of a search after a conflict.
pub(crate) enum AfterConflict {
    /// Go on with the search.
    Continue,
    /// Backtrack to the levels of assumptions.
    Restart,
    /// Backtrack to level 0, and begin the other mode; true if the formula is flat.
    SwitchMode(bool),
    /// Backtrack to level 0, and reset the saved values.
    Rephase(Rephase),
}

/// Schedules restarts, phases and rephasings, by conflicts and LBDs. Phases are measured by ticks (literals that were propagated)
/// instead of seconds, so that a search is the same on every machine.
#[derive(Drop)]
pub(crate) struct Modes {
    /// Whether the present phase is stable; else it is focused.
    is_stable: bool,
    /// The number of clauses that were given so far.
    clauses: u64,
    /// The number of variables.
    vars: u64,
    /// Whether the first phase has found the formula flat.
    is_flat: bool,
    /// The number of conflicts so far.
    conflicts: u64,
    /// The sum of the LBDs of the first phase's lemmas.
    levels: u64,
    /// The sum of the levels of the first phase's conflicts.
    depths: u64,
    /// The number of conflicts at the last restart.
    restarted: u64,
    /// The number of restarts so far, which is only shown.
    restart_count: u64,
    /// The fast moving average of the LBDs of lemmas of focused phases.
    fast: MovingAverage,
    /// The slow moving average of the LBDs of lemmas of focused phases.
    slow: MovingAverage,
    /// The schedule of restarts in a stable phase.
    pace: Luby,
    /// The number of phases before the present one.
    phases: u64,
    /// The number of ticks in the first phase, at least 1 if that is over.
    first_ticks: u64,
    /// The number of ticks at which the present phase ends; the first one ends by conflicts.
    end: u64,
    /// The number of rephasings so far.
    rephasings: u64,
    /// The number of conflicts at the next rephasing.
    next_rephasing: u64,
}

impl Modes {
    /// The schedule for a formula of this many clauses and variables. The first phase is focused, and decides by the queue.
    pub(crate) fn new(clauses: u64, vars: u32) -> Modes {
        Modes {
            is_stable: false,
            clauses,
            vars: vars as u64,
            is_flat: false,
            conflicts: 0,
            levels: 0,
            depths: 0,
            restarted: 0,
            restart_count: 0,
            fast: MovingAverage::new(5),
            slow: MovingAverage::new(16),
            pace: Luby::new(),
            phases: 0,
            first_ticks: 0,
            end: 0,
            rephasings: 0,
            next_rephasing: BETWEEN_REPHASINGS,
        }
    }

    /// Counts a clause that is given after the first ones.
    pub(crate) fn give(&mut self) {
        self.clauses = self.clauses.saturating_add(1);
    }

    /// Counts a conflict at level `depth`, whose lemma has the LBD `levels`. In a focused phase the
    /// moving averages that decide its restarts take the LBD; those of stable phases would mislead.
    pub(crate) fn learn(&mut self, levels: u8, depth: u32) {
        self.conflicts = self.conflicts.saturating_add(1);
        if self.phases == 0 {
            self.levels = self.levels.saturating_add(levels as u64);
            self.depths = self.depths.saturating_add(depth as u64);
        }
        if !self.is_stable {
            self.fast.add(levels as u32);
            self.slow.add(levels as u32);
        } else if self.conflicts % STABLE_UNIT == 0 {
            self.pace.count();
        }
    }

    /// Chooses the next step after a conflict; `ticks` is the number of ticks so far. Begins the next phase if this one is over.
    pub(crate) fn after_conflict(&mut self, ticks: u64) -> AfterConflict {
        if self.is_over(ticks) {
            self.begin_phase(ticks);
            return AfterConflict::SwitchMode(self.is_flat);
        }
        if self.is_stable && self.conflicts >= self.next_rephasing {
            self.restarted = self.conflicts;
            return AfterConflict::Rephase(self.rephase());
        }
        if self.restarts() {
            self.restarted = self.conflicts;
            self.restart_count = self.restart_count.saturating_add(1);
            return AfterConflict::Restart;
        }
        AfterConflict::Continue
    }

    /// The number of restarts so far, without those by which a phase begins.
    pub(crate) fn restart_count(&self) -> u64 {
        self.restart_count
    }

    /// The number of phases so far, with the present one.
    pub(crate) fn phase_count(&self) -> u64 {
        self.phases.saturating_add(1)
    }

    /// Whether the present phase is over: the first one by its number of conflicts, later ones by
    /// `ticks`, which measure the work.
    fn is_over(&self, ticks: u64) -> bool {
        if self.phases == 0 {
            self.conflicts >= FIRST_PHASE
        } else {
            ticks >= self.end
        }
    }

    /// Whether the formula is flat. Then focused phases decide by scores too, bumps grow slower, and reductions come more often: if
    /// conflicts are shallow and lemmas wide, the variable that was bumped last is no nearer to the next conflict than others, and VMTF
    /// gains nothing. In sparse formulas it gains all the same.
    pub(crate) fn is_flat(&self) -> bool {
        self.is_flat
    }

    /// Whether the conflicts of the first phase were shallow, and its lemmas wide, in a dense formula.
    fn was_flat(&self) -> bool {
        self.clauses >= self.vars.saturating_mul(DENSE)
            && self.depths <= self.conflicts.saturating_mul(SHALLOW)
            && self.levels.saturating_mul(WIDE_PART) >= self.depths
    }

    /// Begins the next phase at this number of ticks. The lengths grow with the square of the phase's number.
    fn begin_phase(&mut self, ticks: u64) {
        if self.phases == 0 {
            self.first_ticks = ticks.max(1);
            self.is_flat = self.was_flat();
        }
        self.phases = self.phases.saturating_add(1);
        self.is_stable = !self.is_stable;
        self.restarted = self.conflicts;
        self.pace = Luby::new();
        let round = (self.phases / 2).saturating_add(1);
        let length = self.first_ticks.saturating_mul(round).saturating_mul(round);
        self.end = ticks.saturating_add(length);
    }

    /// Whether a restart is due. If it is, a stable phase schedules its next one.
    fn restarts(&mut self) -> bool {
        if self.is_stable {
            return self.pace.restarts();
        }
        let since = self.conflicts.saturating_sub(self.restarted);
        let fast = self.fast.value().saturating_mul(100);
        since >= BETWEEN_RESTARTS && fast > self.slow.value().saturating_mul(MARGIN)
    }

    /// Chooses the kind of the next rephasing: first, flipped, and then best, first, best, flipped by turns. Schedules the one after it.
    fn rephase(&mut self) -> Rephase {
        let number = self.rephasings;
        self.rephasings = self.rephasings.saturating_add(1);
        let between = BETWEEN_REPHASINGS.saturating_mul(self.rephasings.saturating_add(1));
        self.next_rephasing = self.conflicts.saturating_add(between);
        match number {
            0 => Rephase::First,
            1 => Rephase::Flipped,
            _ => match number % 4 {
                3 => Rephase::First,
                1 => Rephase::Flipped,
                _ => Rephase::Best,
            },
        }
    }
}
