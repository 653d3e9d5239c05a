//! First-UIP conflict analysis: its public calls (Marques-Silva and Sakallah 1996).

ghost use Rattle.std.specs.Prelude.{◌≡◌, [], IfOk, OnOk};
ghost use Rattle.clause_arena.specs.Clauses.{live_of};
ghost use Rattle.conflict_analysis.specs.Lemmas.{AreListedVars, AreDistinctVars, IsPresentConflict, IsLemmaOf, IsTally};

use crate::first_uip::TrailWalk;
use crate::lemma::Lemma;
use crate::minimiser::Minimiser;
use clause_arena::Arena;
use dimacs::Var;
use std::alloc::{AllocError, Global};
use std::marker::Model;
use watches::Trail;

/// An analyser of conflicts. It keeps its tables from one conflict to the next, so that the time of an analysis is linear in the literals
/// that it reads, not in the number of variables.
pub struct Analyser {
    alloc: Global,
    /// The walk down the trail, with the variables that the last analysis met.
    walk: TrailWalk,
    /// The test of literals that the lemma does not need.
    minimiser: Minimiser,
}

impl Drop for Analyser {
    fn drop(self) {
        let Analyser {
            alloc: _,
            walk: _,
            minimiser: _,
        } = self;
    }
}

impl Model for Analyser {
    ghost use Rattle.conflict_analysis.specs.Lemmas.{Met};

    ghost Value = { Met };

    ghost view = { λ a. record { once = a.walk.met.items; again = a.walk.again.items } };
}

impl Analyser {
    /// An analyser before its first conflict.
    pub fn new(alloc: Global) -> Analyser
        ensures { result ≡ record { once = []; again = [] } }
    {
        Analyser {
            alloc,
            walk: TrailWalk::new(alloc),
            minimiser: Minimiser::new(alloc),
        }
    }

    /// The variables of the clauses that the last lemma's hints name, each once: the search bumps them.
    pub fn met(&self) -> &[Var]
        ensures { result.now ≡ self.now.once }
    {
        &self.walk.met
    }

    /// The repeated variables of the last conflict: a variable that is in n literals of the false clause and of the reasons of entries of
    /// the present level is listed n - 1 times.
    pub fn met_again(&self) -> &[Var]
        ensures { result.now ≡ self.now.again }
    {
        &self.walk.again
    }

    /// Makes the lemma of a conflict: of the false clause `number`, which has a literal of the present level, above level 0.
    ///
    /// The lemma follows by reverse unit propagation along its hints, which are in trail order with the false clause last. Its literals
    /// are false, and exactly one is of the present level: the negation of the first unique implication point. Its level, to which the
    /// search backjumps, is the greatest level of the others.
    pub fn analyse(
        &mut self,
        arena: &Arena,
        trail: &Trail,
        number: u64,
    ) -> Result<Lemma, AllocError>
        requires { IsPresentConflict (live_of arena.now) trail.now number }
        ensures lemma { IfOk result (λ lemma. IsLemmaOf (live_of arena.now) trail.now number lemma) }
        ensures met { IfOk result (λ lemma. AreDistinctVars trail.now.vars self.new.once) }
        ensures again { IfOk result (λ lemma. AreListedVars trail.now.vars self.new.once self.new.again) }
        ensures tally { IfOk result (λ lemma. IsTally (live_of arena.now) trail.now number lemma.hints.items self.new) }
    {
        let mut lemma = Lemma::new(self.alloc);
        self.analyse_into(arena, trail, number, &mut lemma)?;
        Ok(lemma)
    }

    /// Makes the lemma of a conflict, that of the first unique implication point, and overwrites
    /// `lemma` with it, whose memory is used again. If memory is refused, `lemma` may hold
    /// anything.
    pub fn analyse_into(
        &mut self,
        arena: &Arena,
        trail: &Trail,
        number: u64,
        lemma: &mut Lemma,
    ) -> Result<(), AllocError>
        requires { IsPresentConflict (live_of arena.now) trail.now number }
        ensures lemma { OnOk result (IsLemmaOf (live_of arena.now) trail.now number lemma.new) }
        ensures met { OnOk result (AreDistinctVars trail.now.vars self.new.once) }
        ensures again { OnOk result (AreListedVars trail.now.vars self.new.once self.new.again) }
        ensures tally { OnOk result (IsTally (live_of arena.now) trail.now number lemma.new.hints.items self.new) }
    {
        let entries = trail.entries();
        lemma.clear();
        self.walk.begin(trail)?;
        self.walk.analyse_number(arena, trail, entries, number)?;
        self.minimiser.begin(trail.vars())?;
        self.walk.descend(arena, trail, &mut self.minimiser, lemma)?;
        lemma.conclude(number)
    }
}

/// Makes the lemma of one conflict, that of the first unique implication point, with an analyser
/// that is used for it alone.
pub fn analyse(
    alloc: Global,
    arena: &Arena,
    trail: &Trail,
    number: u64,
) -> Result<Lemma, AllocError>
    requires { IsPresentConflict (live_of arena.now) trail.now number }
    ensures { IfOk result (λ lemma. IsLemmaOf (live_of arena.now) trail.now number lemma) }
{
    Analyser::new(alloc).analyse(arena, trail, number)
}
