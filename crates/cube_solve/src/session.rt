//! Sessions: an incremental solver, to which clauses are given between queries.

ghost use Rattle.std.specs.Prelude.{◌≡◌, ℕ, ◌+◌, ◌^◌, ◌≤◌, List, [], ◌∷◌, ◌++◌, length, All, Contains, IfOk, OnOk};
ghost use Rattle.std.specs.FinMap.{insert};
ghost use Rattle.dimacs.specs.logic.ClauseMap.{ClauseMap, map_of};
ghost use Rattle.dimacs.specs.logic.Literal.{Clause, IsWithin};
ghost use Rattle.lrat_text.specs.Grammar.{IsClauseNumber};
ghost use Rattle.cube_solve.specs.Session.{IsReady, AreGiven, FollowsFrom, IsLemma, vars_of, last_of, log_of};
ghost use Rattle.cube_solve.specs.SessionLog.{AreOrLeftOut, IsKnown};

use crate::decision_order::Waiting;
use crate::marks::Marks;
use crate::search::Search;
use dimacs::{Base, Lit};
use packed_text::PackedText;
use std::alloc::{AllocError, Global};
use watches::Propagator;

/// An incremental solver over a fixed number of variables: it keeps the clauses that were given, and lemmas that it learnt from them.
pub struct Session<'a, P> {
    /// The search, with the clauses, lemmas and log.
    pub(crate) search: Search<'a, P>,
    /// The greatest number of a clause so far, given or learnt.
    pub(crate) top: u64,
    /// The marks by which repeated literals of a clause or query are found.
    pub(crate) marks: Marks,
}

impl<P> Drop for Session<'_, P> {
    fn drop(self) {
        let Session {
            search: _,
            top: _,
            marks: _,
        } = self;
    }
}

/// The greatest number of a clause.
const LAST: u64 = 1 << 47;

impl<'a, P: Propagator> Session<'a, P> {
    /// A session over the variables of a base, with its clauses. The propagator has no clause yet.
    pub fn new(
        alloc: Global,
        propagator: &'a mut P,
        base: &Base,
    ) -> Result<Session<'a, P>, AllocError>
        requires { P.attached propagator.old ≡ [] }
        ensures ready { IfOk result (IsReady P.is_ready P.attached) }
        ensures given { IfOk result (AreGiven base.now.clauses) }
        ensures vars { IfOk result (λ s. vars_of s ≡ base.now.vars) }
        ensures last { IfOk result (λ s. last_of s ≡ length base.now.clauses) }
        ensures log { IfOk result (λ s. log_of s ≡ []) }
        ensures known { IfOk result (λ s. (given : List ℕ) → ((n : ℕ) → Contains given n → n ≤ length base.now.clauses) → IsKnown given (map_of base.now) s) }
    {
        let vars = base.vars(); // tells the proof a bound of the number of clauses too
        let search = Search::new(alloc, propagator, base, Waiting::Named)?;
        Ok(Session {
            search,
            top: base.len() as u64,
            marks: Marks::new(alloc, vars)?,
        })
    }

    /// Hands out the search, and the greatest number of a clause so far.
    pub(crate) fn into_parts(self) -> (Search<'a, P>, u64)
        ensures { result ≡ (self.entry.search, self.entry.top) }
    {
        let Session {
            search,
            top,
            marks: _,
        } = self;
        (search, top)
    }

    /// The number of the next clause. After number 2^47 it is an error.
    pub(crate) fn next_number(&self) -> Result<u64, AllocError>
        ensures next { IfOk result (λ id. id ≡ self.now.top + 1) }
        ensures number { IfOk result IsClauseNumber }
        ensures bounded { IfOk result (λ id. id ≤ 2 ^ 47) }
    {
        if self.top >= LAST {
            return Err(AllocError);
        }
        Ok(self.top + 1)
    }

    /// Adds a clause over the session's variables. It may repeat literals, and may have a literal and its negation. There is an error if
    /// memory is refused, or after 2^47 clauses and lemmas. After an error, nothing is known of the session.
    pub fn give(&mut self, clause: &[Lit]) -> Result<(), AllocError>
        requires ready { IsReady P.is_ready P.attached self.old }
        requires within { All (IsWithin (vars_of self.old)) clause.now }
        ensures ready { OnOk result (IsReady P.is_ready P.attached self.new) }
        ensures given { OnOk result ((F : List Clause) → AreGiven F self.old → AreGiven (F ++ clause.now ∷ []) self.new) }
        ensures vars { OnOk result (vars_of self.new ≡ vars_of self.old) }
        ensures last { OnOk result (last_of self.new ≡ last_of self.old + 1) }
        ensures number { OnOk result (IsClauseNumber (last_of self.new)) }
        ensures log { log_of self.new ≡ log_of self.old }
        ensures known { OnOk result ((given : List ℕ) (M : ClauseMap) → IsKnown given M self.old → IsKnown (given ++ last_of self.new ∷ []) (insert M (last_of self.new) clause.now) self.new) }
    {
        let id = self.next_number()?;
        let vars = self.search.state.trail.vars();
        let mut kept = Vec::new(self.search.alloc);
        self.marks.mark(vars, clause, &mut kept)?;
        self.search.add_given(id, &kept)?;
        self.top = id;
        Ok(())
    }

    /// Adds a clause over the session's variables that another search of the same clauses has learnt. It may be deleted as a lemma may. As in
    /// `give` it may repeat literals, and may have a literal and its negation; and there is an error if memory is refused, or after 2^47
    /// clauses and lemmas, after which nothing is known of the session.
    pub fn lend(&mut self, clause: &[Lit]) -> Result<(), AllocError>
        requires ready { IsReady P.is_ready P.attached self.old }
        requires within { All (IsWithin (vars_of self.old)) clause.now }
        ensures ready { OnOk result (IsReady P.is_ready P.attached self.new) }
        ensures given { OnOk result ((F : List Clause) → AreGiven F self.old → FollowsFrom F clause.now → AreGiven F self.new) }
        ensures vars { OnOk result (vars_of self.new ≡ vars_of self.old) }
        ensures last { OnOk result (last_of self.new ≡ last_of self.old + 1) }
        ensures number { OnOk result (IsClauseNumber (last_of self.new)) }
        ensures log { log_of self.new ≡ log_of self.old }
        ensures known { OnOk result ((given : List ℕ) (M : ClauseMap) → IsKnown given M self.old → IsKnown given (insert M (last_of self.new) clause.now) self.new) }
        ensures lemma { OnOk result (IsLemma self.new (last_of self.new)) }
    {
        let id = self.next_number()?;
        let vars = self.search.state.trail.vars();
        let mut kept = Vec::new(self.search.alloc);
        self.marks.mark(vars, clause, &mut kept)?;
        self.search.add_lent(id, &kept)?;
        self.top = id;
        Ok(())
    }

    /// Leaves out the numbers up to this one: the next clause has the number behind it. There is an error if memory is refused; then nothing
    /// is known of the session.
    pub fn skip_to(&mut self, number: u64) -> Result<(), AllocError>
        requires ready { IsReady P.is_ready P.attached self.old }
        requires above { last_of self.old ≤ number }
        requires most { number ≤ 2 ^ 47 }
        ensures ready { OnOk result (IsReady P.is_ready P.attached self.new) }
        ensures given { OnOk result ((F : List Clause) → AreGiven F self.old → AreGiven F self.new) }
        ensures vars { OnOk result (vars_of self.new ≡ vars_of self.old) }
        ensures last { OnOk result (last_of self.new ≡ number) }
        ensures log { log_of self.new ≡ log_of self.old }
        // none of the numbers that are left out is ever one of a lemma, so any of them may be counted among those of given clauses
        ensures known { OnOk result ((given more : List ℕ) (M : ClauseMap) → IsKnown given M self.old → AreOrLeftOut (last_of self.old) number given more → IsKnown more M self.new) }
    {
        self.search.uses.skip(number - self.top)?;
        self.top = number;
        Ok(())
    }

    /// Draws the first order of decisions and the values that they try first by a seed, so that searches of one formula go different ways.
    /// Seed 0 changes nothing; sessions with the same seed, clauses and calls do the same. If memory is refused, nothing has changed.
    pub fn diversify(&mut self, seed: u64) -> Result<(), AllocError>
        requires { IsReady P.is_ready P.attached self.old }
        ensures ready { IsReady P.is_ready P.attached self.new }
        ensures given { (F : List Clause) → AreGiven F self.old → AreGiven F self.new }
        ensures vars { vars_of self.new ≡ vars_of self.old }
        ensures last { last_of self.new ≡ last_of self.old }
        ensures log { log_of self.new ≡ log_of self.old }
        ensures known { (given : List ℕ) (M : ClauseMap) → IsKnown given M self.old → IsKnown given M self.new }
    {
        if seed == 0 {
            return Ok(());
        }
        let vars = self.search.state.trail.vars();
        self.search.state.order.diversify(vars, seed)
    }

    /// How many variables the session has.
    pub fn vars(&self) -> u32
        ensures { result ≡ vars_of self.now }
    {
        self.search.state.trail.vars()
    }

    /// The greatest number of a clause so far, given or learnt.
    pub fn last(&self) -> u64
        ensures { result ≡ last_of self.now }
    {
        self.top
    }

    /// Hands out the lemmas and deletions since the last call, or since the beginning, as lines of LRAT text.
    pub fn take_log(&mut self) -> PackedText
        ensures text { result ≡ log_of self.old }
        ensures empty { log_of self.new ≡ [] }
        ensures ready { IsReady P.is_ready P.attached self.old → IsReady P.is_ready P.attached self.new }
        ensures given { (F : List Clause) → AreGiven F self.old → AreGiven F self.new }
        ensures vars { vars_of self.new ≡ vars_of self.old }
        ensures last { last_of self.new ≡ last_of self.old }
        ensures known { (given : List ℕ) (M : ClauseMap) → IsKnown given M self.old → IsKnown given M self.new }
    {
        self.search.take_log()
    }
}
