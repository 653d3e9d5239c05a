//! Statistics of lemmas: when each was last used, and its LBD. By them lemmas are chosen for deletion.
//!
//! No promise rests on the statistics: any lemma that is chosen by them may be deleted.

ghost use Rattle.std.specs.Prelude.{◌≡◌, ◌<◌, ◌≤◌, [], ◌∷◌, ◌++◌, ◌⊎◌, All, Contains, IfOk, OnOk};
ghost use Rattle.clause_arena.specs.Clauses.{live_of};
ghost use Rattle.conflict_analysis.specs.BuiltTrails.{AreInside};
ghost use Rattle.cube_solve.specs.inner.Reduction.{AreRising};

use crate::lbd::LbdCounter;
use clause_arena::Arena;
use std::alloc::{AllocError, Global};
use watches::Trail;

/// A lemma of at most this LBD is never deleted.
const FEW_LEVELS: u8 = 2;

/// A lemma of at most this LBD stays at two reductions after its last use, others stay at one.
const SOME_LEVELS: u8 = 6;

/// While at most this many lemmas are live, nothing is deleted. Lemmas of one literal do not count.
const FEW_LEMMAS: usize = 2000;

/// Reduction number n comes n times this many conflicts after the last one.
const BETWEEN_REDUCTIONS: u64 = 300;

/// The same in a flat formula, whose watch lists are long, so that many lemmas cost more than they save.
const FLAT_BETWEEN_REDUCTIONS: u64 = 50;

/// The greatest number of literals by which lemmas are compared.
const LONG: u64 = (1 << 24) - 1;

/// What is known of a lemma.
#[derive(Clone, Copy)]
struct Stats {
    /// Its LBD: at first without the level of its conflict; later the least that `note_uses` found, of all levels above 0.
    levels: u8,
    /// The number of the last reduction, from 1, at which it stays if it is not used again.
    stays: u16,
}

impl Stats {
    /// The statistics of a lemma of this LBD that is used after so many reductions.
    fn used(levels: u8, reductions: u16) -> Stats {
        Stats {
            levels,
            stays: reductions.saturating_add(if levels <= SOME_LEVELS { 2 } else { 1 }),
        }
    }
}

/// The statistics of all lemmas, and the schedule of reductions.
#[derive(Drop)]
pub(crate) struct LemmaStats {
    /// The number of the first lemma, whose statistics are at index 0 of `stats`.
    first: u64,
    /// For each clause from the first lemma on, live or deleted.
    stats: Vec<Stats>,
    /// The number of reductions so far.
    reductions: u16,
    /// The number of conflicts until the next reduction is due.
    left: u64,
    /// While at most this many lemmas are live, nothing is deleted: `FEW_LEMMAS`, and 1 for each lemma of one literal.
    few: usize,
}

/// Appends a number to `numbers` if `kept` is true. A function of its own, for its contract.
fn keep_if(kept: bool, number: u64, numbers: &mut Vec<u64>) -> Result<(), AllocError>
    ensures { OnOk result ((numbers.new.items ≡ numbers.old.items) ⊎ ((numbers.new.items ≡ numbers.old.items ++ number ∷ []) × Unit {0})) }
{
    if kept {
        numbers.push(number)?;
    }
    Ok(())
}

/// The LBD of the live clause of this number, counted up to `most`; `most` if there is none.
fn lbd_up_to(levels: &mut LbdCounter, arena: &Arena, trail: &Trail, number: u64, most: u8) -> u8
    requires { AreInside (live_of arena.now) trail.now.vars }
{
    match arena.find(number) {
        Some(at) => levels.count(trail, arena.clause(at), most),
        None => most,
    }
}

/// The number of literals of the live clause of this number; 0 if there is none.
fn len_of(arena: &Arena, number: u64) -> u64 {
    match arena.find(number) {
        Some(at) => arena.clause(at).len() as u64,
        None => 0,
    }
}

/// The rank of which `count` of these ranks are below, if all ranks differ; 0 if there are not more than `count`.
fn cut_at(alloc: Global, ranks: &[u64], count: usize) -> Result<u64, AllocError> {
    let mut sorted = Vec::from_slice(alloc, ranks)?;
    sorted.sort_unstable();
    Ok(match sorted.get(count) {
        Some(&rank) => rank,
        None => 0,
    })
}

/// Whether the rank at this index is below `cut`; false if there is none.
fn is_below(ranks: &[u64], place: usize, cut: u64) -> bool {
    match ranks.get(place) {
        Some(&rank) => rank < cut,
        None => false,
    }
}

impl LemmaStats {
    /// Statistics of no lemma; `first` is the number of the first lemma to come.
    pub(crate) fn new(alloc: Global, first: u64) -> LemmaStats {
        LemmaStats {
            first,
            stats: Vec::new(alloc),
            reductions: 0,
            left: BETWEEN_REDUCTIONS,
            few: FEW_LEMMAS,
        }
    }

    /// The number of reductions so far.
    pub(crate) fn reductions(&self) -> u64 {
        self.reductions as u64
    }

    /// Appends the statistics of the next lemma, that of a conflict, which has the LBD `levels` and is used now. Counts the conflict.
    pub(crate) fn learn(&mut self, levels: u8) -> Result<(), AllocError> {
        self.left = self.left.saturating_sub(1);
        self.stats.push(Stats::used(levels, self.reductions))?;
        Ok(())
    }

    /// Appends the statistics of the next clause, which is never deleted.
    pub(crate) fn add(&mut self) -> Result<(), AllocError> {
        self.stats.push(Stats::used(0, 0))?;
        Ok(())
    }

    /// Appends the statistics of so many numbers that no clause has.
    pub(crate) fn skip(&mut self, count: u64) -> Result<(), AllocError> {
        for _ in 0..count {
            self.add()?;
        }
        Ok(())
    }

    /// Appends the statistics of the next lemma, which has one literal. It is never deleted, and does not count among those that are live.
    pub(crate) fn learn_unit(&mut self) -> Result<(), AllocError> {
        self.few = self.few.saturating_add(1);
        self.add()
    }

    /// Appends the statistics of the next clause, a lemma of another search, as if it were used now. Its LBD here is not known before it is
    /// used, so its number of literals, `len`, stands for it.
    pub(crate) fn lend(&mut self, len: usize) -> Result<(), AllocError> {
        if len < 2 {
            return self.learn_unit(); // the empty clause is never deleted either
        }
        let levels = len.min(u8::MAX as usize) as u8;
        self.stats.push(Stats::used(levels, self.reductions))?;
        Ok(())
    }

    /// The statistics of the clause of this number; those of a lemma of LBD 0 if the clause is no lemma.
    fn stats_of(&self, number: u64) -> Stats {
        if let Some(place) = number.checked_sub(self.first) {
            if let Some(&stats) = self.stats.get(place as usize) {
                return stats;
            }
        }
        Stats::used(0, 0)
    }

    /// Sets the statistics of the lemma of this number; nothing changes if the clause is no lemma.
    fn set_stats(&mut self, number: u64, stats: Stats) {
        if let Some(place) = number.checked_sub(self.first) {
            if let Some(kept) = self.stats.get_mut(place as usize) {
                *kept = stats;
            }
        }
    }

    /// Whether the statistics of the clause of this number allow its deletion: its LBD is not low, and it was not used lately. False if
    /// the clause is no lemma.
    pub(crate) fn may_go(&self, number: u64) -> bool {
        let stats = self.stats_of(number);
        stats.levels > FEW_LEVELS && stats.stays <= self.reductions
    }

    /// Notes that an analysis used the clauses of these numbers, and lowers the LBD of each lemma among them to the present one, if that is
    /// less. Lemmas of low LBD are left out, since they are never deleted.
    pub(crate) fn note_uses(
        &mut self,
        levels: &mut LbdCounter,
        arena: &Arena,
        trail: &Trail,
        met: &[u64],
    )
        requires { AreInside (live_of arena.now) trail.now.vars }
    {
        for &number in met {
            let most = self.stats_of(number).levels;
            if most > FEW_LEVELS {
                let present = lbd_up_to(levels, arena, trail, number, most);
                self.set_stats(number, Stats::used(present, self.reductions));
            }
        }
    }

    /// While at most this many lemmas are live, there is no reduction, and a reduction leaves as many. No number is above it as long as
    /// the next reduction is not due.
    pub(crate) fn most(&self) -> usize
        ensures { 2000 ≤ result }
    {
        if self.left > 0 {
            return usize::MAX;
        }
        self.few.max(FEW_LEMMAS)
    }

    /// Counts a reduction, and schedules the next one. `is_flat` says whether the formula is flat (`Modes::is_flat`).
    pub(crate) fn note_reduction(&mut self, is_flat: bool) {
        self.reductions = self.reductions.saturating_add(1);
        let between = if is_flat {
            FLAT_BETWEEN_REDUCTIONS
        } else {
            BETWEEN_REDUCTIONS
        };
        self.left = between.saturating_mul(self.reductions as u64 + 1);
    }

    /// The rank of a lemma for deletion, the least is deleted first: that of most levels, of as many levels that of most literals, and
    /// of as many literals the first one; `place` is its index among the candidates.
    fn rank_of(&self, arena: &Arena, number: u64, place: usize) -> u64 {
        let levels = (u8::MAX - self.stats_of(number).levels) as u64;
        let literals = LONG - len_of(arena, number).min(LONG);
        levels << 56 | literals << 32 | (place as u64).min((1 << 32) - 1)
    }

    /// The ranks of these lemmas, in their order.
    fn ranks_of(
        &self,
        alloc: Global,
        arena: &Arena,
        lemmas: &[u64],
    ) -> Result<Vec<u64>, AllocError> {
        let mut ranks = Vec::with_capacity(alloc, lemmas.len())?;
        for &number in lemmas {
            let rank = self.rank_of(arena, number, ranks.len());
            ranks.push(rank)?;
        }
        Ok(ranks)
    }

    /// Three quarters of these lemmas, rounded down, and at most `most`: those of most levels, in their order.
    pub(crate) fn least_useful(
        &self,
        alloc: Global,
        arena: &Arena,
        lemmas: &[u64],
        most: usize,
    ) -> Result<Vec<u64>, AllocError>
        requires { AreRising lemmas.now }
        ensures rising { IfOk result (λ ids. AreRising ids.items) }
        ensures among { IfOk result (λ ids. All (Contains lemmas.now) ids.items) }
    {
        let ranks = self.ranks_of(alloc, arena, lemmas)?;
        let count = (lemmas.len().saturating_mul(3) / 4).min(most);
        let cut = cut_at(alloc, &ranks, count)?;
        let mut least = Vec::with_capacity(alloc, count)?;
        let mut place = 0usize;
        for &number in lemmas {
            keep_if(is_below(&ranks, place, cut), number, &mut least)?;
            place = place.saturating_add(1);
        }
        Ok(least)
    }
}
