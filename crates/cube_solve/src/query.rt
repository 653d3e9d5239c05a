//! Queries of a session: whether some assignment satisfies the clauses so far and makes given literals true.

ghost use Rattle.std.specs.Prelude.{◌≡◌, ◌+◌, ◌<◌, ◌≤◌, List, [], ◌∷◌, map, All, Contains, true, IfOk, OnOk, None};
ghost use Rattle.clause_arena.specs.Clauses.{live_of};
ghost use Rattle.dimacs.specs.logic.Literal.{Clause, Literal, IsWithin, negation};
ghost use Rattle.lrat_text.specs.Log.{Cube};
ghost use Rattle.watches.specs.Law.{IsConflict};
ghost use Rattle.watches.specs.Trails.{holds, present};
ghost use Rattle.watches.specs.declared.trail.Assigned.{Assigned};
ghost use Rattle.cube_solve.specs.Session.{IsReady, AreGiven, vars_of, last_of, IsRightAnswer, IfUnknown};
ghost use Rattle.cube_solve.specs.SessionLog.{FitsQuery, HasFailed, IsOver, LogGrows, SatisfiesLive};
ghost use Rattle.cube_solve.specs.inner.Queries.{ArePicked, RefutesQuery, IfLimit, IsMarked, IsQueryResult};
ghost use Rattle.cube_solve.specs.inner.State.{IsAssuming};
ghost use Rattle.cube_solve.specs.inner.Marks.{AreMarks};
ghost use Rattle.cube_solve.specs.inner.Steps.{IsFound};

use crate::answer::{Answer, Failure};
use crate::descent::Found;
use crate::marks::{Marks, is_marked, marked_of};
use crate::model::read_model;
use crate::session::Session;
use conflict_analysis::{Closing, Lemma, close_cube};
use dimacs::Lit;
use std::alloc::{AllocError, Global};
use watches::{Assigned, Propagator, Trail};

/// The result of the search under a query, before its answer is made.
#[derive(Drop)]
pub(crate) enum QueryResult {
    /// Each variable has a value, and no clause is false.
    Model,
    /// The query fails: the literals whose negations are in the lemma cannot all be true.
    Failed(Lemma),
    /// As many lemmas were learnt as the limit allows.
    Limit,
}

/// The lemma of a literal and its negation: a tautology, which needs no hint. It is the core's
/// clause if a query has both literals.
fn pair(alloc: Global, literal: Lit) -> Result<Lemma, AllocError>
    ensures lits { IfOk result (λ lemma. lemma.lits.items ≡ literal ∷ negation literal ∷ []) }
    ensures hints { IfOk result (λ lemma. lemma.hints.items ≡ []) }
{
    let mut lemma = Lemma::new(alloc);
    lemma.lits.push(literal)?;
    lemma.lits.push(literal.negate())?;
    Ok(lemma)
}

/// The negations of a lemma's literals, in their order: what of a query the lemma refutes.
fn negated(alloc: Global, literals: &[Lit]) -> Result<Vec<Lit>, AllocError>
    ensures { IfOk result (λ others. others.items ≡ map negation literals.now) }
{
    let mut others = Vec::with_capacity(alloc, literals.len())?;
    for literal in literals {
        others.push(literal.negate())?;
    }
    Ok(others)
}

/// The level `shared`, or the level below an entry if that is a decision whose literal is not marked and is lower.
fn shared_below(marks: &Marks, entry: Assigned, shared: u32) -> u32
    ensures less { result ≤ shared }
    ensures marked { entry.reason ≡ None → 0 < entry.level → entry.level ≤ result → IsMarked marks.now entry.literal }
{
    match entry.reason {
        Some(_) => shared,
        None => {
            if is_marked(marks, entry.literal) {
                shared
            } else {
                shared.min(entry.level.saturating_sub(1))
            }
        }
    }
}

/// The greatest level up to which each decision of the trail is marked.
fn shared_level(trail: &Trail, marks: &Marks) -> u32
    ensures { (e : Assigned) → Contains trail.now.entries e → e.reason ≡ None → 0 < e.level → e.level ≤ result → IsMarked marks.now e.literal }
{
    let entries = trail.entries();
    let mut shared = trail.level();
    let mut i = entries.len();
    'going_down: while i > 0 {
        let entry = entries[i - 1];
        if entry.level == 0 {
            return shared;
        }
        shared = shared_below(marks, entry, shared);
        i -= 1;
    }
    shared
}

impl<P: Propagator> Session<'_, P> {
    /// The lemma of a query's literal that is false: a tautology if the literal's negation was assumed too, else the lemma of final
    /// analysis.
    fn refute_assumption(&self, literal: Lit) -> Result<Lemma, AllocError>
        requires ready { IsReady P.is_ready P.attached self.now }
        requires is_false { holds self.now.search.state.trail.entries (negation literal) ≡ true }
        ensures { IfOk result (λ lemma. (q : Cube) → IsAssuming q self.now.search.state.trail.entries self.now.search.state.assumed → Contains q literal → RefutesQuery (live_of self.now.search.state.arena) self.now.search.state.trail.vars q lemma) }
    {
        let search = &self.search;
        let _ = search.state.trail.entries(); // tells the proof that no two entries have one variable
        let entry = search.state.trail.entry_of(literal.negate());
        match entry.reason {
            Some(_) => {
                let lemma = close_cube(
                    search.alloc,
                    &search.state.arena,
                    &search.state.trail,
                    Closing::Assumption(literal),
                )?;
                Ok(lemma)
            }
            None => {
                let lemma = pair(search.alloc, literal)?;
                Ok(lemma)
            }
        }
    }

    /// The lemma of the false clause of this number, which shows that the query fails. Each level of the trail is one of assumptions.
    fn refute_clause(&self, number: u64) -> Result<Lemma, AllocError>
        requires ready { IsReady P.is_ready P.attached self.now }
        requires conflict { IsConflict (live_of self.now.search.state.arena) self.now.search.state.trail.entries number }
        requires assumed { present self.now.search.state.trail.entries ≤ self.now.search.state.assumed }
        ensures { IfOk result (λ lemma. (q : Cube) → IsAssuming q self.now.search.state.trail.entries self.now.search.state.assumed → RefutesQuery (live_of self.now.search.state.arena) self.now.search.state.trail.vars q lemma) }
    {
        let search = &self.search;
        let lemma = close_cube(
            search.alloc,
            &search.state.arena,
            &search.state.trail,
            Closing::Clause(number),
        )?;
        Ok(lemma)
    }

    /// Learns one lemma under the next clause number. If it is the lemma of the conflict, restarts and reduces if due. It fails after
    /// number 2^47.
    fn handle_conflict(&mut self, conflict: u64) -> Result<(), AllocError>
        requires ready { IsReady P.is_ready P.attached self.old }
        requires conflict { IsConflict (live_of self.old.search.state.arena) self.old.search.state.trail.entries conflict }
        requires above { 0 < present self.old.search.state.trail.entries }
        ensures ready { OnOk result (IsReady P.is_ready P.attached self.new) }
        ensures given { OnOk result ((F : List Clause) → AreGiven F self.old → AreGiven F self.new) }
        ensures tells { OnOk result (LogGrows self.old self.new) }
        ensures vars { OnOk result (vars_of self.new ≡ vars_of self.old) }
        ensures last { OnOk result (last_of self.new ≡ last_of self.old + 1) }
        ensures assuming { OnOk result ((q : Cube) → IsAssuming q self.old.search.state.trail.entries self.old.search.state.assumed → IsAssuming q self.new.search.state.trail.entries self.new.search.state.assumed) }
    {
        let id = self.next_number()?;
        self.top = id;
        if !self.search.learn(conflict, id)? {
            return Ok(());
        }
        self.search.restart_and_reduce(id)?;
        Ok(())
    }

    /// Begins a query, whose literals are those that are marked. Of the trail it keeps what the query shares with the one before: the levels
    /// below the first whose decision is not marked; and all levels if the query is true at these.
    fn begin(&mut self, query: &[Lit])
        requires ready { IsReady P.is_ready P.attached self.old }
        requires within { All (IsWithin (vars_of self.old)) query.now }
        requires marks { (l : Literal) → IsMarked self.old.marks l → Contains query.now l }
        ensures ready { IsReady P.is_ready P.attached self.new }
        ensures given { (F : List Clause) → AreGiven F self.old → AreGiven F self.new }
        ensures tells { LogGrows self.old self.new }
        ensures vars { vars_of self.new ≡ vars_of self.old }
        ensures last { last_of self.new ≡ last_of self.old }
        ensures assuming { IsAssuming query.now self.new.search.state.trail.entries self.new.search.state.assumed }
    {
        let shared = shared_level(&self.search.state.trail, &self.marks);
        self.search.state.begin(query, shared);
    }

    /// Propagates and decides until a clause or an assumption is false, or each variable has a value.
    fn descend(&mut self, query: &[Lit]) -> Found
        requires ready { IsReady P.is_ready P.attached self.old }
        requires within { All (IsWithin (vars_of self.old)) query.now }
        requires assuming { IsAssuming query.now self.old.search.state.trail.entries self.old.search.state.assumed }
        ensures ready { IsReady P.is_ready P.attached self.new }
        ensures given { (F : List Clause) → AreGiven F self.old → AreGiven F self.new }
        ensures tells { LogGrows self.old self.new }
        ensures vars { vars_of self.new ≡ vars_of self.old }
        ensures last { last_of self.new ≡ last_of self.old }
        ensures assuming { IsAssuming query.now self.new.search.state.trail.entries self.new.search.state.assumed }
        ensures found { IsFound self.new.search.state.arena self.new.search.state.trail query.now result }
    {
        self.search.state.descend(query)
    }

    /// Searches for an assignment that satisfies the clauses and makes a query true, with at most `limit` new lemmas. The query repeats no
    /// literal. After clause number 2^47 it is an error.
    fn search_query(&mut self, query: &[Lit], limit: u64) -> Result<QueryResult, AllocError>
        requires ready { IsReady P.is_ready P.attached self.old }
        requires within { All (IsWithin (vars_of self.old)) query.now }
        requires assuming { IsAssuming query.now self.old.search.state.trail.entries self.old.search.state.assumed }
        ensures ready { OnOk result (IsReady P.is_ready P.attached self.new) }
        ensures given { OnOk result ((F : List Clause) → AreGiven F self.old → AreGiven F self.new) }
        ensures tells { OnOk result (LogGrows self.old self.new) }
        ensures vars { OnOk result (vars_of self.new ≡ vars_of self.old) }
        ensures sought { IfOk result (IsQueryResult self.new.search.state.arena self.new.search.state.trail query.now) }
        ensures limit { IfOk result (λ sought. IfLimit sought (last_of self.new ≡ last_of self.old + limit)) }
        ensures most { OnOk result (last_of self.new ≤ last_of self.old + limit) }
    {
        let mut learnt = 0;
        'turns: loop {
            match self.descend(query) {
                Found::Model => return Ok(QueryResult::Model),
                Found::Assumption(literal) => {
                    let lemma = self.refute_assumption(literal)?;
                    return Ok(QueryResult::Failed(lemma));
                }
                Found::Clause(number) => {
                    if self.search.state.trail.level() <= self.search.state.assumed {
                        let lemma = self.refute_clause(number)?;
                        return Ok(QueryResult::Failed(lemma));
                    }
                    if learnt == limit {
                        return Ok(QueryResult::Limit);
                    }
                    self.handle_conflict(number)?;
                    learnt += 1;
                }
            }
        }
    }

    /// Collects the literals of a query, each once, in the order of their first occurrences, and marks them.
    fn without_repeats(&mut self, query: &[Lit]) -> Result<Vec<Lit>, AllocError>
        requires ready { IsReady P.is_ready P.attached self.old }
        requires within { All (IsWithin (vars_of self.old)) query.now }
        ensures ready { OnOk result (IsReady P.is_ready P.attached self.new) }
        ensures given { OnOk result ((F : List Clause) → AreGiven F self.old → AreGiven F self.new) }
        ensures tells { OnOk result (LogGrows self.old self.new) }
        ensures search { OnOk result (self.new.search ≡ self.old.search) }
        ensures vars { OnOk result (vars_of self.new ≡ vars_of self.old) }
        ensures last { OnOk result (last_of self.new ≡ last_of self.old) }
        ensures marks { IfOk result (λ kept. AreMarks query.now kept.items self.new.marks.stamps.items self.new.marks.stamp) }
        ensures within { IfOk result (λ kept. All (IsWithin (vars_of self.old)) kept.items) }
    {
        let vars = self.search.state.trail.vars();
        let mut kept = Vec::new(self.search.alloc);
        self.marks.mark(vars, query, &mut kept)?;
        Ok(kept)
    }

    /// Collects the core: the literals of a query whose negations are in a clause, in the query's order. The query repeats no literal.
    fn core_of(&mut self, query: &[Lit], clause: &[Lit]) -> Result<Vec<Lit>, AllocError>
        requires ready { IsReady P.is_ready P.attached self.old }
        requires within { All (IsWithin (vars_of self.old)) clause.now }
        ensures ready { OnOk result (IsReady P.is_ready P.attached self.new) }
        ensures given { OnOk result ((F : List Clause) → AreGiven F self.old → AreGiven F self.new) }
        ensures tells { OnOk result (LogGrows self.old self.new) }
        ensures search { OnOk result (self.new.search ≡ self.old.search) }
        ensures vars { OnOk result (vars_of self.new ≡ vars_of self.old) }
        ensures last { OnOk result (last_of self.new ≡ last_of self.old) }
        ensures picked { IfOk result (λ core. ArePicked query.now clause.now core.items) }
    {
        let others = negated(self.search.alloc, clause)?;
        let _kept = self.without_repeats(&others)?; // for the marks
        let core = marked_of(self.search.alloc, &self.marks, query)?;
        Ok(core)
    }

    /// Searches for an assignment that satisfies the clauses so far and makes the literals of a query true, with at most `limit` more
    /// lemmas. The lemmas are kept, whatever the answer is. The query may repeat literals, and may have a literal and its negation.
    ///
    /// There is an error if memory is refused, or after 2^47 clauses and lemmas. After an error, nothing is known of the session.
    pub fn ask(&mut self, query: &[Lit], limit: u64) -> Result<Answer, AllocError>
        requires ready { IsReady P.is_ready P.attached self.old }
        requires within { All (IsWithin (vars_of self.old)) query.now }
        ensures ready { OnOk result (IsReady P.is_ready P.attached self.new) }
        ensures given { OnOk result ((F : List Clause) → AreGiven F self.old → AreGiven F self.new) }
        ensures tells { OnOk result (LogGrows self.old self.new) }
        ensures vars { OnOk result (vars_of self.new ≡ vars_of self.old) }
        ensures answer { IfOk result (λ answer. (F : List Clause) → AreGiven F self.old → IsRightAnswer (vars_of self.old) F query.now answer) }
        ensures unknown { IfOk result (λ answer. IfUnknown answer (last_of self.new ≡ last_of self.old + limit)) }
        ensures most { OnOk result (last_of self.new ≤ last_of self.old + limit) }
        ensures failed { IfOk result (λ answer. HasFailed answer self.new) }
        ensures over { IfOk result (IsOver (vars_of self.old)) }
        // whatever the session was lent
        ensures fits { IfOk result (FitsQuery query.now) }
        ensures live { IfOk result (λ answer. SatisfiesLive answer self.new) }
    {
        let kept = self.without_repeats(query)?;
        self.begin(&kept);
        let sought = self.search_query(&kept, limit)?;
        match sought {
            QueryResult::Model => {
                let values = read_model(self.search.alloc, &self.search.state.trail)?;
                Ok(Answer::Satisfied(values))
            }
            QueryResult::Failed(lemma) => {
                let core = self.core_of(&kept, &lemma.lits)?;
                Ok(Answer::Failed(Failure {
                    core,
                    hints: lemma.hints,
                }))
            }
            QueryResult::Limit => Ok(Answer::Unknown),
        }
    }
}
