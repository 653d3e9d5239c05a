//! A search that is run in steps, between which its log is handed out, so that no log has to be held whole.

ghost use Rattle.std.specs.Prelude.{◌≡◌, ℕ, ◌+◌, ◌<◌, ◌≤◌, List, [], map, nat_eq, length, All, IfOk, OnOk};
ghost use Rattle.std.specs.List.{IsDistinct};
ghost use Rattle.clause_arena.specs.Clauses.{live_of};
ghost use Rattle.conflict_analysis.specs.Lemmas.{IsClosing};
ghost use Rattle.dimacs.specs.logic.Cnf.{Cnf};
ghost use Rattle.dimacs.specs.logic.Literal.{IsWithin, var_of};
ghost use Rattle.lrat_text.specs.Log.{Cube};
ghost use Rattle.watches.specs.Law.{IsConflict};
ghost use Rattle.watches.specs.Trails.{present};
ghost use Rattle.cube_solve.specs.Stepwise.{IsAdvanced, IsUnderWay};
ghost use Rattle.cube_solve.specs.inner.Steps.{IsFound};
ghost use Rattle.cube_solve.specs.inner.Turns.{HasClosed, IsTurned};

use crate::decision_order::Waiting;
use crate::descent::Found;
use crate::model::read_model;
use crate::observer::Counts;
use crate::search::Search;
use conflict_analysis::{Closing, close_cube};
use dimacs::{Assignment, Base, Lit};
use packed_text::PackedText;
use std::alloc::{AllocError, Global};
use watches::Propagator;

/// How a search that is run in steps ends.
#[derive(Drop)]
pub enum End {
    /// This assignment satisfies the base and makes the cube true.
    Model(Assignment),
    /// The log closes the cube.
    Refuted,
    /// As many lemmas were learnt as the limit allows, and the conflict that was met needs one more.
    Limit,
}

/// How far a call of [`Stepwise::advance`] has come.
#[derive(Drop)]
pub struct Advance {
    /// The counts so far; their bytes are those of the whole log.
    pub counts: Counts,
    /// The lines of the log since the last call.
    pub text: PackedText,
    /// How the search has ended; `None` if it goes on.
    pub end: Option<End>,
}

/// A search over a base under a cube that is run in steps.
pub struct Stepwise<'a, P> {
    /// The search; its log has the lines that are not handed out yet.
    pub(crate) search: Search<'a, P>,
    /// The number of the base's clauses.
    pub(crate) clauses: u64,
    /// The most lemmas.
    pub(crate) most: u64,
    /// The number of lemmas so far.
    pub(crate) learnt: u64,
    /// The bytes of the log that were handed out.
    pub(crate) taken: u64,
}

impl<P> Drop for Stepwise<'_, P> {
    fn drop(self) {
        let Stepwise {
            search: _,
            clauses: _,
            most: _,
            learnt: _,
            taken: _,
        } = self;
    }
}

impl<'a, P: Propagator> Stepwise<'a, P> {
    /// A search over a base with a limit of lemmas, before its first step. The propagator has no clause yet. A limit above 2^47 counts as
    /// 2^47.
    pub fn new(
        alloc: Global,
        propagator: &'a mut P,
        base: &Base,
        limit: u64,
    ) -> Result<Stepwise<'a, P>, AllocError>
        requires { P.attached propagator.old ≡ [] }
        ensures { IfOk result (λ s. (q : Cube) → IsDistinct nat_eq (map var_of q) → All (IsWithin base.now.vars) q → IsUnderWay P.is_ready P.attached base.now q limit [] s) }
    {
        let _ = base.vars(); // tells the proof a bound of the number of clauses
        Ok(Stepwise {
            search: Search::new(alloc, propagator, base, Waiting::All)?,
            clauses: base.len() as u64,
            most: limit.min(1 << 47),
            learnt: 0,
            taken: 0,
        })
    }

    /// Propagates, assumes and decides until a clause or a literal of the cube is false, or each variable has a value.
    fn descend(&mut self, cube: &[Lit]) -> Found
        requires { (B : Cnf) × (limit : ℕ) × (before : List ℕ) × IsUnderWay P.is_ready P.attached B cube.now limit before self.old }
        ensures under { (B : Cnf) (limit : ℕ) (before : List ℕ) → IsUnderWay P.is_ready P.attached B cube.now limit before self.old → IsUnderWay P.is_ready P.attached B cube.now limit before self.new }
        ensures found { IsFound self.new.search.state.arena self.new.search.state.trail cube.now result }
    {
        self.search.state.descend(cube)
    }

    /// Appends the lemma that closes the cube to the log.
    fn close(&mut self, closing: Closing) -> Result<(), AllocError>
        requires under { (B : Cnf) × (q : Cube) × (limit : ℕ) × (before : List ℕ) × IsUnderWay P.is_ready P.attached B q limit before self.old }
        requires closing { IsClosing (live_of self.old.search.state.arena) self.old.search.state.trail.entries closing }
        ensures { OnOk result (HasClosed closing self.old self.new) }
    {
        let search = &self.search;
        let lemma = close_cube(
            search.alloc,
            &search.state.arena,
            &search.state.trail,
            closing,
        )?;
        self.search
            .log
            .write(self.clauses + 1 + self.learnt, &lemma)?;
        Ok(())
    }

    /// Learns one lemma under the next clause number. If it is the lemma of the conflict, restarts and reduces if due.
    fn learn(&mut self, conflict: u64) -> Result<(), AllocError>
        requires under { (B : Cnf) × (q : Cube) × (limit : ℕ) × (before : List ℕ) × IsUnderWay P.is_ready P.attached B q limit before self.old }
        requires conflict { IsConflict (live_of self.old.search.state.arena) self.old.search.state.trail.entries conflict }
        requires above { 0 < present self.old.search.state.trail.entries }
        requires limit { self.old.learnt < self.old.most }
        ensures { OnOk result ((B : Cnf) (q : Cube) (limit : ℕ) (before : List ℕ) → IsUnderWay P.is_ready P.attached B q limit before self.old → IsUnderWay P.is_ready P.attached B q limit before self.new) }
    {
        let id = self.clauses + 1 + self.learnt;
        self.learnt += 1;
        if !self.search.learn(conflict, id)? {
            return Ok(());
        }
        self.search.restart_and_reduce(id)?;
        Ok(())
    }

    /// Learns a lemma from a conflict, unless it closes the cube or is met at the limit.
    fn meet(&mut self, cube: &[Lit], number: u64) -> Result<Option<End>, AllocError>
        requires under { (B : Cnf) × (limit : ℕ) × (before : List ℕ) × IsUnderWay P.is_ready P.attached B cube.now limit before self.old }
        requires conflict { IsConflict (live_of self.old.search.state.arena) self.old.search.state.trail.entries number }
        ensures { IfOk result (λ end. (B : Cnf) (limit : ℕ) (before : List ℕ) → IsUnderWay P.is_ready P.attached B cube.now limit before self.old → IsTurned P.is_ready P.attached B cube.now limit before end self.new) }
    {
        if self.search.state.trail.level() <= self.search.state.assumed {
            self.close(Closing::Clause(number))?;
            return Ok(Some(End::Refuted));
        }
        if self.learnt == self.most {
            let _ = self.search.state.trail.entries(); // tells the proof that no two have one variable
            return Ok(Some(End::Limit));
        }
        self.learn(number)?;
        Ok(None)
    }

    /// Goes on by one lemma, or to the end of the search.
    fn turn(&mut self, cube: &[Lit]) -> Result<Option<End>, AllocError>
        requires { (B : Cnf) × (limit : ℕ) × (before : List ℕ) × IsUnderWay P.is_ready P.attached B cube.now limit before self.old }
        ensures { IfOk result (λ end. (B : Cnf) (limit : ℕ) (before : List ℕ) → IsUnderWay P.is_ready P.attached B cube.now limit before self.old → IsTurned P.is_ready P.attached B cube.now limit before end self.new) }
    {
        match self.descend(cube) {
            Found::Model => {
                let values = read_model(self.search.alloc, &self.search.state.trail)?;
                Ok(Some(End::Model(values)))
            }
            Found::Assumption(literal) => {
                self.close(Closing::Assumption(literal))?;
                Ok(Some(End::Refuted))
            }
            Found::Clause(number) => {
                let end = self.meet(cube, number)?;
                Ok(end)
            }
        }
    }

    /// Goes on by `step` lemmas, or to the end of the search.
    fn turns(&mut self, cube: &[Lit], step: u64) -> Result<Option<End>, AllocError>
        requires { (B : Cnf) × (limit : ℕ) × (before : List ℕ) × IsUnderWay P.is_ready P.attached B cube.now limit before self.old }
        ensures { IfOk result (λ end. (B : Cnf) (limit : ℕ) (before : List ℕ) → IsUnderWay P.is_ready P.attached B cube.now limit before self.old → IsTurned P.is_ready P.attached B cube.now limit before end self.new) }
    {
        'turns: for _ in 0..step {
            match self.turn(cube)? {
                None => {}
                end => return Ok(end),
            }
        }
        Ok(None)
    }

    /// The counts so far, with the bytes of the whole log. It is an error if these are 2^64.
    fn counts(&self) -> Result<Counts, AllocError>
        ensures conflicts { IfOk result (λ c. c.conflicts ≡ self.now.learnt) }
        ensures lemmas { IfOk result (λ c. c.lemmas ≡ length self.now.search.lemmas.items) }
        ensures bytes { IfOk result (λ c. c.bytes ≡ self.now.taken + length self.now.search.log) }
    {
        let counts = self.search.counts(self.learnt);
        match self.taken.checked_add(counts.bytes) {
            Some(bytes) => Ok(Counts { bytes, ..counts }),
            None => Err(AllocError),
        }
    }

    /// Goes on by `step` lemmas, or to the end of the search, and hands out the lines of its log since the last call. The cube is the same
    /// from call to call. There is an error if memory is refused, or if the log has 2^64 bytes; after it, and after the end, nothing is
    /// known of the search.
    pub fn advance(&mut self, cube: &[Lit], step: u64) -> Result<Advance, AllocError>
        requires { (B : Cnf) × (limit : ℕ) × (before : List ℕ) × IsUnderWay P.is_ready P.attached B cube.now limit before self.old }
        ensures { IfOk result (λ advance. (B : Cnf) (limit : ℕ) (before : List ℕ) → IsUnderWay P.is_ready P.attached B cube.now limit before self.old → IsAdvanced P.is_ready P.attached B cube.now limit before advance self.new) }
    {
        let end = self.turns(cube, step)?;
        let counts = self.counts()?;
        let text = self.search.take_log();
        self.taken = counts.bytes;
        Ok(Advance { counts, text, end })
    }
}
