//! The CDCL loop: propagate and decide down to a conflict, learn a lemma from it, and go on.

ghost use Rattle.std.specs.Prelude.{◌≡◌, ℕ, ◌+◌, ◌<◌, ◌≤◌, ◌^◌, [], ◌∷◌, ◌++◌, map, nat_eq, All, IfOk, OnOk};
ghost use Rattle.std.specs.List.{IsDistinct};
ghost use Rattle.dimacs.specs.logic.ClauseMap.{map_of, live_in};
ghost use Rattle.dimacs.specs.logic.Literal.{Clause, IsWithin, same, var_of};
ghost use Rattle.clause_arena.specs.Clauses.{live_of};
ghost use Rattle.lrat_text.specs.Grammar.{IsClauseNumber};
ghost use Rattle.lrat_text.specs.Log.{Cube};
ghost use Rattle.watches.specs.Law.{IsConflict};
ghost use Rattle.watches.specs.Trails.{present};
ghost use Rattle.conflict_analysis.specs.Lemmas.{IsClosing, NegatesAssumptions};
ghost use Rattle.cube_solve.specs.inner.Reduction.{AreRising, AreLemmas, DeletesLemmas, MayReduce};
ghost use Rattle.cube_solve.specs.inner.LearntLog.{AreBelow, IsWritten, Learns};
ghost use Rattle.cube_solve.specs.inner.Twins.{AreLinked, IsAdded};
ghost use Rattle.cube_solve.specs.Counts.{AreCounts, HasLog};
ghost use Rattle.cube_solve.specs.Outcome.{IsRightOutcome};
ghost use Rattle.cube_solve.specs.inner.State.{IsAssuming};
ghost use Rattle.cube_solve.specs.inner.SearchInvariants.{IsSteady, IsSearching};
ghost use Rattle.cube_solve.specs.inner.UnitClauses.{AreNoted, IsRootUnitLemma};

use crate::counts::refuted_by;
use crate::decision_order::Waiting;
use crate::descent::Found;
use crate::garbage::Garbage;
use crate::lbd::LbdCounter;
use crate::lemma_stats::LemmaStats;
use crate::log::Log;
use crate::model::read_model;
use crate::modes::Modes;
use crate::observer::Observer;
use crate::outcome::{Outcome, Searched};
use crate::root_units::{list_root_literals, make_next_unit};
use crate::state::State;
use crate::unit_clauses::UnitClauses;
use conflict_analysis::{Analyser, Closing, Lemma, close_cube};
use dimacs::{Base, Lit};
use packed_text::PackedText;
use std::alloc::{AllocError, Global};
use std::mem::replace;
use watches::{Propagator, add_clause};

/// A search: its state, its lemmas, and its heuristics.
pub(crate) struct Search<'a, P> {
    pub(crate) alloc: Global,
    /// Clauses, propagator, trail and decision order.
    pub(crate) state: State<'a, P>,
    /// The numbers of the live lemmas, in ascending order.
    pub(crate) lemmas: Vec<u64>,
    /// When each lemma was last used, and its LBD; the schedule of reductions.
    pub(crate) uses: LemmaStats,
    /// The lemmas and deletions, as LRAT text, since the log was last taken.
    pub(crate) log: Log,
    /// The count of removed literals, which says when to compact the arena.
    pub(crate) garbage: Garbage,
    /// The noted unit clauses.
    pub(crate) units: UnitClauses,
    /// The literals of level 0 that are to get a unit lemma, the next one last.
    wanted: Vec<Lit>,
    /// The analyser of conflicts, with its tables.
    analyser: Analyser,
    /// The lemma of the last conflict, whose memory the next one reuses.
    lemma: Lemma,
    /// The counter of LBDs.
    levels: LbdCounter,
    /// The schedule of restarts, modes and rephasings.
    pub(crate) phases: Modes,
}

impl<P> Drop for Search<'_, P> {
    fn drop(self) {
        let Search {
            alloc: _,
            state: _,
            lemmas: _,
            uses: _,
            log: _,
            garbage: _,
            units: _,
            wanted: _,
            analyser: _,
            lemma: _,
            levels: _,
            phases: _,
        } = self;
    }
}

impl<'a, P: Propagator> Search<'a, P> {
    /// A search over a base, before its first step. `waiting` says which variables may be decided.
    pub(crate) fn new(
        alloc: Global,
        propagator: &'a mut P,
        base: &Base,
        waiting: Waiting,
    ) -> Result<Search<'a, P>, AllocError>
        requires { P.attached propagator.old ≡ [] }
        ensures searching { IfOk result (IsSearching P.is_ready P.attached base.now 0) }
        ensures linked { IfOk result (λ s. AreLinked (live_in (map_of base.now)) (live_of s.state.arena)) }
        ensures lemmas { IfOk result (λ s. s.lemmas.items ≡ []) }
        ensures log { IfOk result (λ s. s.log ≡ []) }
        ensures assuming { IfOk result (λ s. (q : Cube) → IsAssuming q s.state.trail.entries s.state.assumed) }
    {
        let vars = base.vars(); // tells the proof a bound of the number of clauses too
        let state = State::new(alloc, propagator, base, waiting)?;
        Ok(Search {
            alloc,
            state,
            lemmas: Vec::new(alloc),
            uses: LemmaStats::new(alloc, base.len() as u64 + 1),
            log: Log::new(alloc),
            garbage: Garbage::new(base),
            units: UnitClauses::new(alloc, base)?,
            wanted: Vec::new(alloc),
            analyser: Analyser::new(alloc),
            lemma: Lemma::new(alloc),
            levels: LbdCounter::new(alloc, base.vars())?,
            phases: Modes::new(base.len() as u64, vars),
        })
    }

    /// Ends the search: hands out its log, and frees all else.
    fn into_log(self) -> Log
        ensures { result ≡ self.entry.log }
    {
        let Search {
            alloc: _,
            state: _,
            lemmas: _,
            uses: _,
            log,
            garbage: _,
            units: _,
            wanted: _,
            analyser: _,
            lemma: _,
            levels: _,
            phases: _,
        } = self;
        log
    }

    /// Ends the search: hands out the packed text of its log, and frees all else.
    fn into_packed(self) -> PackedText
        ensures { result ≡ self.entry.log }
    {
        self.into_log().into_packed()
    }

    /// Ends a refutation: appends the lemma that closes the cube to the log, under the number `id`,
    /// and hands out the log's packed text.
    fn close(mut self, closing: Closing, id: u64) -> Result<PackedText, AllocError>
        requires steady { IsSteady P.is_ready P.attached self.state }
        requires closing { IsClosing (live_of self.state.arena) self.state.trail.entries closing }
        requires limit { self.state.trail.vars ≤ 199999999 }
        requires id { IsClauseNumber id }
        requires numbers { AreBelow id (live_of self.state.arena) }
        ensures { IfOk result (λ text. (lits : Clause) × IsWritten (live_of self.entry.state.arena) self.entry.state.trail.vars id lits self.entry.log text × NegatesAssumptions self.entry.state.trail.entries closing lits) }
    {
        let lemma = close_cube(self.alloc, &self.state.arena, &self.state.trail, closing)?;
        self.log.write(id, &lemma)?;
        Ok(self.into_packed())
    }

    /// Learns the lemma of a conflict under the number `id`: writes it to the log, bumps variables, backjumps to the lemma's level, and
    /// adds the lemma to the clauses.
    fn learn_conflict(&mut self, conflict: u64, id: u64) -> Result<(), AllocError>
        requires steady { IsSteady P.is_ready P.attached self.old.state }
        requires conflict { IsConflict (live_of self.old.state.arena) self.old.state.trail.entries conflict }
        requires above { 0 < present self.old.state.trail.entries }
        requires limit { self.old.state.trail.vars ≤ 199999999 }
        requires id { IsClauseNumber id }
        requires numbers { AreBelow id (live_of self.old.state.arena) }
        requires noted { AreNoted (live_of self.old.state.arena) self.old.units.numbers.items }
        ensures steady { OnOk result (IsSteady P.is_ready P.attached self.new.state) }
        ensures noted { OnOk result (AreNoted (live_of self.new.state.arena) self.new.units.numbers.items) }
        ensures learns { OnOk result (Learns self.old.state.trail.vars id (live_of self.old.state.arena) (live_of self.new.state.arena) self.old.log self.new.log) }
        ensures lemmas { OnOk result (self.new.lemmas.items ≡ self.old.lemmas.items ++ id ∷ []) }
        ensures vars { OnOk result (self.new.state.trail.vars ≡ self.old.state.trail.vars) }
        ensures assuming { OnOk result ((q : Cube) → IsAssuming q self.old.state.trail.entries self.old.state.assumed → IsAssuming q self.new.state.trail.entries self.new.state.assumed) }
    {
        let state = &mut self.state;
        self.analyser
            .analyse_into(&state.arena, &state.trail, conflict, &mut self.lemma)?;
        self.log.write(id, &self.lemma)?;
        list_root_literals(
            &mut self.wanted,
            &self.units,
            &state.arena,
            &state.trail,
            &self.lemma.hints,
        )?;
        self.uses.note_uses(
            &mut self.levels,
            &state.arena,
            &state.trail,
            &self.lemma.hints,
        );
        let levels = self.levels.count(&state.trail, &self.lemma.lits, u8::MAX);
        let levels = levels.saturating_sub(1); // without the present level
        self.phases.learn(levels, state.trail.level());
        state
            .order
            .bump(self.analyser.met(), self.analyser.met_again())?;
        state.order.note(&state.trail);
        state.backtrack(self.lemma.level);
        add_clause(
            state.propagator,
            &mut state.arena,
            &state.trail,
            id,
            &self.lemma.lits,
        )?;
        self.units.note(&self.lemma.lits, id);
        self.lemmas.push(id)?;
        self.uses.learn(levels)?;
        Ok(())
    }

    /// Learns the unit lemma of a literal that is true at level 0, under the number `id`: writes it to the log, adds it to the clauses, and
    /// makes it the literal's reason.
    fn learn_unit(&mut self, literal: Lit, id: u64) -> Result<(), AllocError>
        requires steady { IsSteady P.is_ready P.attached self.old.state }
        requires above { 0 < present self.old.state.trail.entries }
        requires limit { self.old.state.trail.vars ≤ 199999999 }
        requires id { IsClauseNumber id }
        requires numbers { AreBelow id (live_of self.old.state.arena) }
        requires noted { AreNoted (live_of self.old.state.arena) self.old.units.numbers.items }
        requires fixing { IsRootUnitLemma (live_of self.old.state.arena) self.old.state.trail self.old.units.numbers.items literal self.old.lemma }
        ensures steady { OnOk result (IsSteady P.is_ready P.attached self.new.state) }
        ensures noted { OnOk result (AreNoted (live_of self.new.state.arena) self.new.units.numbers.items) }
        ensures learns { OnOk result (Learns self.old.state.trail.vars id (live_of self.old.state.arena) (live_of self.new.state.arena) self.old.log self.new.log) }
        ensures lemmas { OnOk result (self.new.lemmas.items ≡ self.old.lemmas.items ++ id ∷ []) }
        ensures vars { OnOk result (self.new.state.trail.vars ≡ self.old.state.trail.vars) }
        ensures assuming { OnOk result ((q : Cube) → IsAssuming q self.old.state.trail.entries self.old.state.assumed → IsAssuming q self.new.state.trail.entries self.new.state.assumed) }
    {
        self.log.write(id, &self.lemma)?;
        self.state.add_root_unit(literal, id, &self.lemma.lits)?;
        self.units.note(&self.lemma.lits, id);
        self.lemmas.push(id)?;
        self.uses.learn_unit()?;
        Ok(())
    }

    /// Learns the unit lemma of the next wanted literal that can have one, or the lemma of the conflict if there is none. Returns true if
    /// it was the conflict's.
    pub(crate) fn learn(&mut self, conflict: u64, id: u64) -> Result<bool, AllocError>
        requires steady { IsSteady P.is_ready P.attached self.old.state }
        requires conflict { IsConflict (live_of self.old.state.arena) self.old.state.trail.entries conflict }
        requires above { 0 < present self.old.state.trail.entries }
        requires limit { self.old.state.trail.vars ≤ 199999999 }
        requires id { IsClauseNumber id }
        requires numbers { AreBelow id (live_of self.old.state.arena) }
        requires noted { AreNoted (live_of self.old.state.arena) self.old.units.numbers.items }
        ensures steady { OnOk result (IsSteady P.is_ready P.attached self.new.state) }
        ensures noted { OnOk result (AreNoted (live_of self.new.state.arena) self.new.units.numbers.items) }
        ensures learns { OnOk result (Learns self.old.state.trail.vars id (live_of self.old.state.arena) (live_of self.new.state.arena) self.old.log self.new.log) }
        ensures lemmas { OnOk result (self.new.lemmas.items ≡ self.old.lemmas.items ++ id ∷ []) }
        ensures vars { OnOk result (self.new.state.trail.vars ≡ self.old.state.trail.vars) }
        ensures assuming { OnOk result ((q : Cube) → IsAssuming q self.old.state.trail.entries self.old.state.assumed → IsAssuming q self.new.state.trail.entries self.new.state.assumed) }
    {
        let state = &self.state;
        let next = make_next_unit(
            &mut self.wanted,
            &self.units,
            &state.arena,
            &state.trail,
            &mut self.lemma,
        )?;
        match next {
            Some(literal) => {
                self.learn_unit(literal, id)?;
                Ok(false)
            }
            None => {
                self.learn_conflict(conflict, id)?;
                Ok(true)
            }
        }
    }

    /// Restarts or rephases, and reduces the lemmas, each if it is due. The line of a reduction begins with `top`.
    pub(crate) fn restart_and_reduce(&mut self, top: u64) -> Result<(), AllocError>
        requires steady { IsSteady P.is_ready P.attached self.old.state }
        requires rising { AreRising self.old.lemmas.items }
        requires top { IsClauseNumber top }
        requires numbers { AreBelow (top + 1) (live_of self.old.state.arena) }
        ensures steady { OnOk result (IsSteady P.is_ready P.attached self.new.state) }
        ensures vars { OnOk result (self.new.state.trail.vars ≡ self.old.state.trail.vars) }
        ensures assuming { OnOk result ((q : Cube) → IsAssuming q self.old.state.trail.entries self.old.state.assumed → IsAssuming q self.new.state.trail.entries self.new.state.assumed) }
        ensures lemmas { OnOk result ((first : ℕ) → AreLemmas first (live_of self.old.state.arena) self.old.lemmas.items → AreLemmas first (live_of self.new.state.arena) self.new.lemmas.items) }
        ensures kept { OnOk result ((first : ℕ) → AreLemmas first (live_of self.old.state.arena) self.old.lemmas.items → MayReduce first (live_of self.old.state.arena) (live_of self.new.state.arena) self.old.log self.new.log) }
        ensures drops { OnOk result (DeletesLemmas top self.old.lemmas.items self.new.lemmas.items (live_of self.old.state.arena) (live_of self.new.state.arena) self.old.log self.new.log) }
        ensures units { self.new.units ≡ self.old.units }
    {
        let after_conflict = self.phases.after_conflict(self.state.ticks);
        self.state.restart_or_rephase(after_conflict);
        if self.lemmas.len() <= self.uses.most() {
            return Ok(());
        }
        self.state.backtrack(0);
        self.reduce(top)?;
        Ok(())
    }

    /// Adds a clause under the number `id`, but not to `lemmas`: one that a session is given, or any
    /// that it takes along to more variables.
    pub(crate) fn add_given(&mut self, id: u64, lits: &[Lit]) -> Result<(), AllocError>
        requires steady { IsSteady P.is_ready P.attached self.old.state }
        requires distinct { IsDistinct same lits.now }
        requires within { All (IsWithin self.old.state.trail.vars) lits.now }
        requires id { 0 < id }
        requires numbers { AreBelow id (live_of self.old.state.arena) }
        requires noted { AreNoted (live_of self.old.state.arena) self.old.units.numbers.items }
        ensures steady { OnOk result (IsSteady P.is_ready P.attached self.new.state) }
        ensures noted { OnOk result (AreNoted (live_of self.new.state.arena) self.new.units.numbers.items) }
        ensures added { OnOk result (IsAdded (live_of self.old.state.arena) id lits.now (live_of self.new.state.arena)) }
        ensures lemmas { OnOk result (self.new.lemmas.items ≡ self.old.lemmas.items) }
        ensures vars { OnOk result (self.new.state.trail.vars ≡ self.old.state.trail.vars) }
        ensures log { self.new.log ≡ self.old.log }
    {
        self.state.add_given(id, lits)?;
        self.units.note(lits, id);
        self.garbage.give(lits); // more given literals: compaction waits for more garbage
        self.phases.give();
        self.uses.add()?; // the statistics are by number, so each clause has a place
        Ok(())
    }

    /// Adds a clause under the number `id`, also to `lemmas`: one that another search has learnt.
    pub(crate) fn add_lent(&mut self, id: u64, lits: &[Lit]) -> Result<(), AllocError>
        requires steady { IsSteady P.is_ready P.attached self.old.state }
        requires distinct { IsDistinct same lits.now }
        requires within { All (IsWithin self.old.state.trail.vars) lits.now }
        requires id { 0 < id }
        requires numbers { AreBelow id (live_of self.old.state.arena) }
        requires noted { AreNoted (live_of self.old.state.arena) self.old.units.numbers.items }
        ensures steady { OnOk result (IsSteady P.is_ready P.attached self.new.state) }
        ensures noted { OnOk result (AreNoted (live_of self.new.state.arena) self.new.units.numbers.items) }
        ensures added { OnOk result (IsAdded (live_of self.old.state.arena) id lits.now (live_of self.new.state.arena)) }
        ensures lemmas { OnOk result (self.new.lemmas.items ≡ self.old.lemmas.items ++ id ∷ []) }
        ensures vars { OnOk result (self.new.state.trail.vars ≡ self.old.state.trail.vars) }
        ensures log { self.new.log ≡ self.old.log }
    {
        self.state.add_given(id, lits)?;
        self.units.note(lits, id);
        self.lemmas.push(id)?;
        self.uses.lend(lits.len())?;
        Ok(())
    }

    /// Moves the lemmas' numbers and statistics, the log, and the saved values of another search
    /// into this one, when a session moves to more variables. This search has the other's clauses
    /// already.
    pub(crate) fn take_over_lemmas(&mut self, other: Search<'_, P>)
        ensures { self.new ≡ record self.old { lemmas = other.entry.lemmas; uses = other.entry.uses; log = other.entry.log } }
    {
        let state = &other.state;
        self.state.order.take_over(&state.order, &state.trail);
        let Search {
            alloc: _,
            state: _,
            lemmas,
            uses,
            log,
            garbage: _,
            units: _,
            wanted: _,
            analyser: _,
            lemma: _,
            levels: _,
            phases: _,
        } = other;
        self.lemmas = lemmas;
        self.uses = uses;
        self.log = log;
    }

    /// Hands out the packed text of the log, and empties the log.
    pub(crate) fn take_log(&mut self) -> PackedText
        ensures text { result ≡ self.old.log }
        ensures rest { self.new ≡ record self.old { log = [] } }
    {
        let log = replace(&mut self.log, Log::new(self.alloc));
        log.into_packed()
    }

    /// Learns one lemma under the next clause number; `learnt` is the number of lemmas before. If it is the lemma of the conflict, restarts
    /// and reduces if due.
    fn handle_conflict(&mut self, base: &Base, conflict: u64, learnt: u64) -> Result<(), AllocError>
        requires searching { IsSearching P.is_ready P.attached base.now learnt self.old }
        requires conflict { IsConflict (live_of self.old.state.arena) self.old.state.trail.entries conflict }
        requires above { 0 < present self.old.state.trail.entries }
        requires limit { learnt < 2 ^ 47 }
        ensures searching { OnOk result (IsSearching P.is_ready P.attached base.now (learnt + 1) self.new) }
        ensures assuming { OnOk result ((q : Cube) → IsAssuming q self.old.state.trail.entries self.old.state.assumed → IsAssuming q self.new.state.trail.entries self.new.state.assumed) }
    {
        let _ = base.vars(); // tells the proof a bound of the number of clauses
        let id = base.len() as u64 + 1 + learnt;
        if !self.learn(conflict, id)? {
            return Ok(());
        }
        self.restart_and_reduce(id)?;
        Ok(())
    }

    /// Searches for an assignment that satisfies the base and makes the cube true, with at most `limit` lemmas, and at most 2^47. The
    /// observer is shown the counts after each 1,000 lemmas.
    pub(crate) fn run<O: Observer>(
        mut self,
        base: &Base,
        cube: &[Lit],
        limit: u64,
        observer: &mut O,
    ) -> Result<Searched, AllocError>
        requires searching { IsSearching P.is_ready P.attached base.now 0 self }
        requires assuming { IsAssuming cube.now self.state.trail.entries self.state.assumed }
        requires distinct { IsDistinct nat_eq (map var_of cube.now) }
        requires within { All (IsWithin base.now.vars) cube.now }
        ensures right { IfOk result (λ s. IsRightOutcome base.now cube.now limit s.outcome) }
        ensures counts { IfOk result (λ s. AreCounts base.now limit s.counts s.outcome) }
        ensures log { IfOk result (λ s. HasLog base.now s.counts s.outcome s.log) }
    {
        let _ = base.vars(); // tells the proof a bound of the number of clauses
        let most = limit.min(1 << 47);
        let mut learnt = 0;
        'turns: loop {
            let id = base.len() as u64 + 1 + learnt;
            match self.state.descend(cube) {
                Found::Model => {
                    let counts = self.counts(learnt);
                    let values = read_model(self.alloc, &self.state.trail)?;
                    return Ok(Searched {
                        outcome: Outcome::Model(values),
                        counts,
                        log: Some(self.into_packed()),
                    });
                }
                Found::Assumption(literal) => {
                    let counts = self.counts(learnt);
                    let text = self.close(Closing::Assumption(literal), id)?;
                    return Ok(refuted_by(text, counts));
                }
                Found::Clause(number) => {
                    if self.state.trail.level() <= self.state.assumed {
                        let counts = self.counts(learnt);
                        let text = self.close(Closing::Clause(number), id)?;
                        return Ok(refuted_by(text, counts));
                    }
                    if learnt == most {
                        let counts = self.counts(learnt);
                        let _ = self.state.trail.entries(); // tells the proof that no two have one variable
                        return Ok(Searched {
                            outcome: Outcome::Limit(self.into_packed()),
                            counts,
                            log: None,
                        });
                    }
                    self.handle_conflict(base, number, learnt)?;
                    learnt += 1;
                    self.show_if_due(observer, learnt);
                }
            }
        }
    }
}
