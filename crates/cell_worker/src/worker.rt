//! The worker: a search that is lent lemmas, with the text of its log and its offers.

ghost use Rattle.std.specs.Prelude.{◌≡◌, ℕ, ◌+◌, ◌^◌, ◌<◌, ◌≤◌, List, [], ◌∷◌, ◌++◌, ◌⊎◌, map, max, MatchBool, IsTrue, All, Contains, IfOk, OnOk};
ghost use Rattle.dimacs.specs.logic.Cnf.{Cnf};
ghost use Rattle.dimacs.specs.logic.ClauseMap.{ClauseMap};
ghost use Rattle.dimacs.specs.logic.Literal.{IsTautology, IsWithin, negation};
ghost use Rattle.lrat_text.specs.Grammar.{IsClauseNumber};
ghost use Rattle.shared_logs.specs.SharedLogs.{SharedStep, Lemma, Import, Clock};
ghost use Rattle.shared_logs.specs.SharedText.{IsName, Names};
ghost use Rattle.cube_solve.specs.Session.{log_of};
ghost use Rattle.cube_solve.specs.SessionLog.{IsFailure, IsKnown};
ghost use Rattle.elimination.specs.Kept.{HasEliminated, IsLeftOf};
ghost use Rattle.cell_worker.specs.WorkerLog.{HasBegun, HasTurned, HasWritten, IfLimit, IsSharedText, IsWorkerReady, clock_in, formula_in, gone_in, last_in, lemmas_besides, log_state, names_in, vars_in};

use crate::kept_session::session_over;
use crate::offers::Offers;
use crate::shared_text::{put_clock, put_import, put_lemma, put_name};
use crate::turn::Turn;
use cube_solve::{Answer, Failure, Session};
use dimacs::{Formula, Lit};
use elimination::{Kept, Witness};
use std::alloc::{AllocError, Global};
use watches::Propagator;

/// The greatest time of a clock.
const LAST_TIME: u64 = 1 << 40;

/// The greatest number that stands for a name.
const LAST_NAME: u64 = (1 << 48) - 1;

/// A search of a formula that takes over lemmas of other searches of it, and writes a log with imports. After an error nothing is known of
/// it.
pub struct CellWorker<'a, P> {
    pub(crate) alloc: Global,
    /// The formula.
    pub(crate) formula: &'a Formula,
    /// Whether a variable is eliminated, by its number; those past its end are not.
    pub(crate) eliminated: Vec<bool>,
    /// What an assignment of the search's clauses needs to satisfy the formula; nothing if the search has all of it.
    pub(crate) witness: Option<Witness>,
    /// The search. Between two calls its own log is empty: its lines are moved to `log`.
    pub(crate) search: Session<'a, P>,
    /// The bytes of the log that are not handed out yet.
    pub(crate) log: Vec<u8>,
    /// The buffer of a line.
    line: Vec<u8>,
    /// The offers.
    offers: Offers,
    /// The time by the log's clock.
    pub(crate) clock: u64,
    /// The numbers from 1 to this one stand for names of logs.
    pub(crate) names: u64,
}

impl<P> Drop for CellWorker<'_, P> {
    fn drop(self) {
        let CellWorker {
            alloc: _,
            formula: _,
            eliminated: _,
            witness: _,
            search: _,
            log: _,
            line: _,
            offers: _,
            clock: _,
            names: _,
        } = self;
    }
}

/// Whether each literal of a clause has a variable from 1 to `vars`.
fn is_within(vars: u32, clause: &[Lit]) -> bool
    ensures inside { IsTrue result → All (IsWithin vars) clause.now }
    ensures outside { All (IsWithin vars) clause.now → IsTrue result }
{
    for literal in clause {
        if literal.var().number() > vars {
            return false;
        }
    }
    true
}

/// Whether a clause has a literal of a variable that is eliminated.
fn has_eliminated(eliminated: &[bool], clause: &[Lit]) -> bool
    ensures { MatchBool result (HasEliminated eliminated.now clause.now) (¬ (HasEliminated eliminated.now clause.now)) }
{
    for literal in clause {
        let number = literal.var().number() as usize;
        if number < eliminated.len() && eliminated[number] {
            return true;
        }
    }
    false
}

/// The negations of a core's literals, in their order: the clause that closes it.
fn negated(alloc: Global, core: &[Lit]) -> Result<Vec<Lit>, AllocError>
    ensures { IfOk result (λ lits. lits.items ≡ map negation core.now) }
{
    let mut lits = Vec::with_capacity(alloc, core.len())?;
    for literal in core {
        lits.push(literal.negate())?;
    }
    Ok(lits)
}

impl<'a, P: Propagator> CellWorker<'a, P> {
    /// A worker on a formula, whose search goes its way by a seed; by 0 it is the plain search. The propagator has no clause yet.
    pub fn new(
        alloc: Global,
        propagator: &'a mut P,
        formula: &'a Formula,
        seed: u64,
    ) -> Result<CellWorker<'a, P>, AllocError>
        requires { P.attached propagator.old ≡ [] }
        ensures ready { IfOk result (IsWorkerReady P.is_ready P.attached) }
        ensures vars { IfOk result (λ w. vars_in w ≡ formula.now.vars) }
        ensures names { IfOk result (λ w. names_in w ≡ 0) }
        ensures whole { IfOk result (λ w. gone_in w ≡ []) }
        ensures stands { IfOk result (HasWritten formula.now [] [] []) }
    {
        let mut search = Session::new(alloc, propagator, formula.as_base())?;
        search.diversify(seed)?;
        Ok(CellWorker {
            alloc,
            formula,
            eliminated: Vec::new(alloc),
            witness: None,
            search,
            log: Vec::new(alloc),
            line: Vec::new(alloc),
            offers: Offers::new(alloc),
            clock: 0,
            names: 0,
        })
    }

    /// A worker on a formula whose search has what elimination has left of it, and goes its way by a seed. Its log begins with the lines of
    /// the resolvents. The propagator has no clause yet.
    pub fn over(
        alloc: Global,
        propagator: &'a mut P,
        formula: &'a Formula,
        kept: Kept,
        seed: u64,
    ) -> Result<CellWorker<'a, P>, AllocError>
        requires empty { P.attached propagator.old ≡ [] }
        requires kept { IsLeftOf formula.now kept }
        requires few { kept.all ≤ 2 ^ 47 }
        ensures ready { IfOk result (IsWorkerReady P.is_ready P.attached) }
        ensures vars { IfOk result (λ w. vars_in w ≡ formula.now.vars) }
        ensures names { IfOk result (λ w. names_in w ≡ 0) }
        ensures gone { IfOk result (λ w. gone_in w ≡ kept.eliminated.items) }
        ensures stands { IfOk result (HasBegun formula.now) }
    {
        let mut search = session_over(alloc, propagator, &kept)?;
        search.diversify(seed)?;
        let log = kept.lines.to_text(alloc)?;
        let Kept {
            formula: _,
            numbers: _,
            eliminated,
            all: _,
            lines: _,
            witness,
        } = kept;
        Ok(CellWorker {
            alloc,
            formula,
            eliminated,
            witness: Some(witness),
            search,
            log,
            line: Vec::new(alloc),
            offers: Offers::new(alloc),
            clock: 0,
            names: 0,
        })
    }

    /// Writes the name of a log that lemmas will be taken over from, and answers the number that stands for it here. There is an error if
    /// memory is refused, or after 2^48 - 1 names.
    pub fn name(&mut self, name: &[u8]) -> Result<u64, AllocError>
        requires { IsName name.now }
        ensures ready { OnOk result (IsWorkerReady P.is_ready P.attached self.old → IsWorkerReady P.is_ready P.attached self.new) }
        ensures number { IfOk result (λ number. number ≡ names_in self.old + 1) }
        ensures numbered { IfOk result IsClauseNumber }
        ensures names { IfOk result (λ number. names_in self.new ≡ number) }
        ensures vars { OnOk result (vars_in self.new ≡ vars_in self.old) }
        ensures gone { OnOk result (gone_in self.new ≡ gone_in self.old) }
        ensures clock { OnOk result (clock_in self.new ≡ clock_in self.old) }
        ensures stands { IfOk result (λ number. (F : Cnf) (names : Names) (steps : List SharedStep) (text : List ℕ) → HasWritten F names steps text self.old → HasWritten F ((number, name.now) ∷ names) steps text self.new) }
    {
        if self.names >= LAST_NAME {
            return Err(AllocError);
        }
        self.names += 1;
        put_name(&mut self.log, self.names, name)?;
        Ok(self.names)
    }

    /// The last number that was given to a name.
    pub fn names(&self) -> u64
        ensures { result ≡ names_in self.now }
    {
        self.names
    }

    /// Moves the clock to one more than its time and `read`, the greatest time that was read of other logs. Answers false, and nothing
    /// changes, if that is above 2^40.
    pub fn advance(&mut self, read: u64) -> Result<bool, AllocError>
        ensures ready { OnOk result (IsWorkerReady P.is_ready P.attached self.old → IsWorkerReady P.is_ready P.attached self.new) }
        ensures names { OnOk result (names_in self.new ≡ names_in self.old) }
        ensures vars { OnOk result (vars_in self.new ≡ vars_in self.old) }
        ensures gone { OnOk result (gone_in self.new ≡ gone_in self.old) }
        ensures moved { IfOk result (λ moved. MatchBool moved (clock_in self.new ≡ max (clock_in self.old) read + 1) (2 ^ 40 ≤ max (clock_in self.old) read)) }
        ensures stands { IfOk result (λ moved. MatchBool moved ((F : Cnf) (names : Names) (steps : List SharedStep) (text : List ℕ) → HasWritten F names steps text self.old → HasWritten F names (steps ++ Clock (clock_in self.new) ∷ []) text self.new) (self.new ≡ self.old)) }
    {
        let time = self.clock.max(read);
        if time >= LAST_TIME {
            return Ok(false);
        }
        put_clock(&mut self.log, time + 1)?;
        self.clock = time + 1;
        Ok(true)
    }

    /// Takes over a clause that the log of number `log` is said to have as its lemma `there`, written at the time `time`. Answers false, and
    /// nothing changes, if the clause has other variables than the formula or one that is eliminated, or if the time is not below the
    /// clock's.
    pub fn lend(
        &mut self,
        log: u64,
        there: u64,
        clause: &[Lit],
        time: u64,
    ) -> Result<bool, AllocError>
        requires ready { IsWorkerReady P.is_ready P.attached self.old }
        requires named { IsClauseNumber log }
        requires there { IsClauseNumber there }
        ensures ready { OnOk result (IsWorkerReady P.is_ready P.attached self.new) }
        ensures names { OnOk result (names_in self.new ≡ names_in self.old) }
        ensures vars { OnOk result (vars_in self.new ≡ vars_in self.old) }
        ensures gone { OnOk result (gone_in self.new ≡ gone_in self.old) }
        ensures clock { OnOk result (clock_in self.new ≡ clock_in self.old) }
        ensures lent { IfOk result (λ lent. MatchBool lent ((time < clock_in self.old) × All (IsWithin (vars_in self.old)) clause.now × ¬ (HasEliminated (gone_in self.old) clause.now))
            ((clock_in self.old ≤ time) ⊎ (¬ (All (IsWithin (vars_in self.old)) clause.now) ⊎ HasEliminated (gone_in self.old) clause.now))) }
        ensures stands { IfOk result (λ lent. MatchBool lent ((F : Cnf) (names : Names) (steps : List SharedStep) (text name : List ℕ) → HasWritten F names steps text self.old → Contains names (log, name) → HasWritten F names (steps ++ Import (last_in self.new) clause.now name there ∷ []) text self.new) (self.new ≡ self.old)) }
    {
        if time >= self.clock || !is_within(self.search.vars(), clause) {
            return Ok(false);
        }
        if has_eliminated(&self.eliminated, clause) {
            return Ok(false);
        }
        self.search.lend(clause)?;
        let id = self.search.last();
        put_import(&mut self.log, &mut self.line, id, clause, log, there)?;
        Ok(true)
    }

    /// Moves the lines of the search's log to this one, and offers its short lemmas.
    fn take_lines(&mut self) -> Result<(), AllocError>
        ensures formula { OnOk result (formula_in self.new ≡ formula_in self.old) }
        ensures log { OnOk result (self.new.log.items ≡ self.old.log.items ++ log_of self.old.search) }
        ensures empty { OnOk result (log_of self.new.search ≡ []) }
        ensures ready { OnOk result (IsWorkerReady P.is_ready P.attached self.old → IsWorkerReady P.is_ready P.attached self.new) }
        ensures names { OnOk result (names_in self.new ≡ names_in self.old) }
        ensures vars { OnOk result (vars_in self.new ≡ vars_in self.old) }
        ensures gone { OnOk result (gone_in self.new ≡ gone_in self.old) }
        ensures last { OnOk result (last_in self.new ≡ last_in self.old) }
        ensures clock { OnOk result (clock_in self.new ≡ clock_in self.old) }
        ensures known { OnOk result ((given : List ℕ) (M : ClauseMap) → IsKnown given M self.old.search → IsKnown given M self.new.search) }
    {
        let log = self.search.take_log();
        let text = log.to_text(self.alloc)?;
        self.log.extend_from_slice(&text)?;
        self.offers.put_all(self.alloc, self.clock, &log)
    }

    /// Writes the lemma that closes a failed query, under the next number, which is answered. It is a clause of the search from now on, and
    /// is offered, however long it is.
    fn close(&mut self, failure: &Failure) -> Result<u64, AllocError>
        requires ready { IsWorkerReady P.is_ready P.attached self.old }
        requires core { All (IsWithin (vars_in self.old)) failure.now.core.items }
        requires hints { All IsClauseNumber failure.now.hints.items }
        ensures ready { OnOk result (IsWorkerReady P.is_ready P.attached self.new) }
        ensures names { OnOk result (names_in self.new ≡ names_in self.old) }
        ensures vars { OnOk result (vars_in self.new ≡ vars_in self.old) }
        ensures gone { OnOk result (gone_in self.new ≡ gone_in self.old) }
        ensures last { OnOk result (last_in self.new ≡ last_in self.old + 1) }
        ensures clock { OnOk result (clock_in self.new ≡ clock_in self.old) }
        ensures stands { IfOk result (λ number. (F : Cnf) (names : Names) (steps : List SharedStep) (text : List ℕ) → HasWritten F names steps text self.old → ¬ (IsTautology failure.now.core.items) → IsFailure (log_state F steps).live failure.now.core.items failure.now.hints.items → HasWritten F names (steps ++ Lemma number (map negation failure.now.core.items) failure.now.hints.items ∷ []) text self.new) }
    {
        let lits = negated(self.alloc, &failure.core)?;
        self.search.lend(&lits)?;
        let id = self.search.last();
        put_lemma(&mut self.log, id, &lits, &failure.hints)?;
        self.offers.put(self.clock, id, &lits)?;
        Ok(id)
    }

    /// Searches for an assignment that satisfies the formula and makes the literals of a query true, with at most `limit` lemmas. The query
    /// has no literal beside its negation, and best no variable that is eliminated.
    pub fn turn(&mut self, query: &[Lit], limit: u64) -> Result<Turn, AllocError>
        requires ready { IsWorkerReady P.is_ready P.attached self.old }
        requires within { All (IsWithin (vars_in self.old)) query.now }
        requires consistent { ¬ (IsTautology query.now) }
        ensures ready { OnOk result (IsWorkerReady P.is_ready P.attached self.new) }
        ensures names { OnOk result (names_in self.new ≡ names_in self.old) }
        ensures vars { OnOk result (vars_in self.new ≡ vars_in self.old) }
        ensures gone { OnOk result (gone_in self.new ≡ gone_in self.old) }
        ensures clock { OnOk result (clock_in self.new ≡ clock_in self.old) }
        ensures limit { IfOk result (λ turn. IfLimit turn (last_in self.new ≡ last_in self.old + limit)) }
        ensures most { IfOk result (λ turn. last_in self.new ≤ last_in self.old + limit + lemmas_besides (formula_in self.old) turn) }
        ensures stands { IfOk result (λ turn. (F : Cnf) (names : Names) (steps : List SharedStep) (text : List ℕ) → HasWritten F names steps text self.old → HasTurned F names steps text query.now turn self.new) }
    {
        let answer = self.search.ask(query, limit)?;
        self.take_lines()?;
        match answer {
            Answer::Satisfied(found) => match self.settle(query, found)? {
                Some(values) => Ok(Turn::Satisfied(values)),
                None => Ok(Turn::Restored),
            },
            Answer::Failed(failure) => {
                let number = self.close(&failure)?;
                Ok(Turn::Closed(number))
            }
            Answer::Unknown => Ok(Turn::Limit),
        }
    }

    /// The bytes of the log that were written since the last call of `forget`.
    pub fn written(&self) -> &[u8]
        ensures bytes { result.now ≡ self.now.log.items }
        // with the bytes that were handed out they are the text of a log with imports over the formula
        ensures text { (F : Cnf) (names : Names) (steps : List SharedStep) (text : List ℕ) → HasWritten F names steps text self.now → IsSharedText F names steps (text ++ result.now) }
    {
        &self.log
    }

    /// Drops the bytes that `written` answers, after the caller has handed them out.
    pub fn forget(&mut self)
        ensures ready { IsWorkerReady P.is_ready P.attached self.old → IsWorkerReady P.is_ready P.attached self.new }
        ensures names { names_in self.new ≡ names_in self.old }
        ensures vars { vars_in self.new ≡ vars_in self.old }
        ensures gone { gone_in self.new ≡ gone_in self.old }
        ensures clock { clock_in self.new ≡ clock_in self.old }
        ensures empty { self.new.log.items ≡ [] }
        ensures stands { (F : Cnf) (names : Names) (steps : List SharedStep) (text : List ℕ) → HasWritten F names steps text self.old → HasWritten F names steps (text ++ self.old.log.items) self.new }
    {
        self.log.clear();
    }

    /// The offers that were made since the last call of `forget_offers`: lines of lemmas, for other workers. Hand them out after the bytes of
    /// the log.
    pub fn offered(&self) -> &[u8]
        ensures { result.now ≡ self.now.offers.text.items }
    {
        &self.offers.text
    }

    /// Drops the offers that `offered` answers.
    pub fn forget_offers(&mut self)
        ensures ready { IsWorkerReady P.is_ready P.attached self.old → IsWorkerReady P.is_ready P.attached self.new }
        ensures names { names_in self.new ≡ names_in self.old }
        ensures vars { vars_in self.new ≡ vars_in self.old }
        ensures gone { gone_in self.new ≡ gone_in self.old }
        ensures clock { clock_in self.new ≡ clock_in self.old }
        ensures stands { (F : Cnf) (names : Names) (steps : List SharedStep) (text : List ℕ) → HasWritten F names steps text self.old → HasWritten F names steps text self.new }
    {
        self.offers.text.clear();
    }
}
