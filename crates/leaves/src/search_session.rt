//! A solver session that searches under cubes, and the log of all that it has learnt.

ghost use Rattle.std.specs.Prelude.{◌≡◌, ℕ, ◌+◌, ◌++◌, ◌∷◌, [], List, map, nat_eq, All, IfOk, OnOk};
ghost use Rattle.std.specs.List.{IsDistinct};
ghost use Rattle.cube_solve.specs.Session.{AreGiven, IsReady, last_of, log_of, vars_of};
ghost use Rattle.cube_solve.specs.SessionLog.{IsKnown};
ghost use Rattle.dimacs.specs.logic.ClauseMap.{ClauseMap, live_in, map_of};
ghost use Rattle.dimacs.specs.logic.Cnf.{Cnf};
ghost use Rattle.dimacs.specs.logic.Literal.{Clause, IsWithin, negation, var_of};
ghost use Rattle.dimacs.specs.logic.Propagation.{Rup};
ghost use Rattle.dimacs.specs.text.Grammar.{Begins};
ghost use Rattle.leaves.specs.inner.BlockSearch.{IsAnswered, IsWithinLineLimits, HasFound, HasSearched};
ghost use Rattle.lrat_text.specs.Grammar.{IsClauseNumber};
ghost use Rattle.lrat_text.specs.Runs.{after_steps};
ghost use Rattle.lrat_text.specs.WrittenLine.{line_of};
ghost use Rattle.lrat_text.specs.declared.step.Step.{Step};
ghost use Rattle.lrat_text.specs.declared.step.Step.TheVariants.{Add};

use cube_solve::{Answer, Failure, Session};
use dimacs::{Assignment, Base, Lit};
use lrat_text::{Groups, StepRef};
use packed_text::PackedText;
use std::alloc::{AllocError, Global};
use watches::Propagator;

/// How a search under a cube ended.
#[derive(Drop)]
pub(crate) enum Found {
    /// The search found this assignment.
    Model(Assignment),
    /// A lemma closes the cube.
    Closed,
    /// The search reached its limit of lemmas.
    Limit,
}

/// A session of the solver, with the log of all searches so far.
pub(crate) struct SearchSession<'a, P> {
    /// The solver session. Between two calls its own log is empty: its lines are moved to `log`.
    pub(crate) session: Session<'a, P>,
    /// The log over the formula of all searches so far.
    pub(crate) log: PackedText,
}

impl<P> Drop for SearchSession<'_, P> {
    fn drop(self) {
        let SearchSession { session: _, log: _ } = self;
    }
}

/// Builds the negations of literals, in their order: the clause of a core.
fn negated(alloc: Global, literals: &[Lit]) -> Result<Vec<Lit>, AllocError>
    ensures { IfOk result (λ others. others.items ≡ map negation literals.now) }
{
    let mut others = Vec::with_capacity(alloc, literals.len())?;
    for literal in literals {
        others.push(literal.negate())?;
    }
    Ok(others)
}

/// Appends the line of the lemma of this number, with these literals and hints, to the log.
fn put_lemma(
    alloc: Global,
    log: &mut PackedText,
    id: u64,
    lits: &[Lit],
    hints: &[u64],
) -> Result<(), AllocError>
    requires number { IsClauseNumber id }
    requires within { All (IsWithin 199999999) lits.now }
    requires hints { All IsClauseNumber hints.now }
    ensures { OnOk result (log.new ≡ log.old ++ line_of id (Add id lits.now hints.now [])) }
{
    let groups = Groups::new(alloc);
    let mut line = Vec::new(alloc);
    log.put_within(
        StepRef::Add {
            id,
            lits,
            hints,
            groups: &groups,
        },
        id,
        &mut line,
    )
}

/// How many bytes of a packed text are unpacked at a time.
const PIECE: usize = 1 << 16;

/// Appends the packed text `more` to the log, `PIECE` bytes at a time.
fn append(alloc: Global, log: &mut PackedText, more: &PackedText) -> Result<(), AllocError>
    ensures { OnOk result (log.new ≡ log.old ++ more.now) }
{
    let mut from = 0;
    'pieces: while from < more.len() {
        let count = PIECE.min(more.len() - from);
        let piece = more.read(alloc, from, count)?;
        log.extend(&piece)?;
        from += count;
    }
    Ok(())
}

impl<'a, P: Propagator> SearchSession<'a, P> {
    /// A session over the formula that has searched under no cube, with an empty log.
    pub(crate) fn new(
        alloc: Global,
        propagator: &'a mut P,
        base: &Base,
    ) -> Result<SearchSession<'a, P>, AllocError>
        requires { P.attached propagator.old ≡ [] }
        ensures ready { IfOk result (λ s. IsReady P.is_ready P.attached s.session) }
        ensures stands { IfOk result (HasSearched base.now [] []) }
    {
        Ok(SearchSession {
            session: Session::new(alloc, propagator, base)?,
            log: PackedText::new(alloc),
        })
    }

    /// Moves the lines of the lemmas and deletions since the last call from the session to the end
    /// of the log.
    fn take_lines(&mut self, alloc: Global) -> Result<(), AllocError>
        requires { IsReady P.is_ready P.attached self.old.session }
        ensures ready { OnOk result (IsReady P.is_ready P.attached self.new.session) }
        ensures vars { OnOk result (vars_of self.new.session ≡ vars_of self.old.session) }
        ensures last { OnOk result (last_of self.new.session ≡ last_of self.old.session) }
        ensures given { OnOk result ((F : List Clause) → AreGiven F self.old.session → AreGiven F self.new.session) }
        ensures known { OnOk result ((given : List ℕ) (M : ClauseMap) → IsKnown given M self.old.session → IsKnown given M self.new.session) }
        ensures taken { OnOk result (log_of self.new.session ≡ []) }
        ensures log { OnOk result (self.new.log ≡ self.old.log ++ log_of self.old.session) }
    {
        let lines = self.session.take_log();
        append(alloc, &mut self.log, &lines)
    }

    /// Asks the session for an assignment under a cube, of at most `limit` lemmas, and moves the lines of what it has learnt to the log.
    fn ask(&mut self, alloc: Global, cube: &[Lit], limit: u64) -> Result<Answer, AllocError>
        requires ready { IsReady P.is_ready P.attached self.old.session }
        requires within { All (IsWithin (vars_of self.old.session)) cube.now }
        ensures ready { OnOk result (IsReady P.is_ready P.attached self.new.session) }
        ensures vars { OnOk result (vars_of self.new.session ≡ vars_of self.old.session) }
        ensures longer { OnOk result (Begins self.old.log self.new.log) }
        ensures short { IfOk result (IsWithinLineLimits (vars_of self.old.session)) }
        ensures answered { IfOk result (λ answer. (F : Cnf) (closing : List Clause) (steps : List Step) → HasSearched F closing steps self.old → IsAnswered F closing steps cube.now limit answer self.new) }
    {
        let answer = self.session.ask(cube, limit)?;
        self.take_lines(alloc)?;
        Ok(answer)
    }

    /// Closes a cube that has failed: gives the clause of the core's negations to the session, and
    /// appends it to the log as a lemma. A given clause is never deleted, so the lemma stays live.
    fn close(&mut self, alloc: Global, failure: &Failure) -> Result<(), AllocError>
        requires ready { IsReady P.is_ready P.attached self.old.session }
        requires within { All (IsWithin (vars_of self.old.session)) failure.now.core.items }
        requires hints { All IsClauseNumber failure.now.hints.items }
        ensures ready { OnOk result (IsReady P.is_ready P.attached self.new.session) }
        ensures vars { OnOk result (vars_of self.new.session ≡ vars_of self.old.session) }
        ensures longer { OnOk result (Begins self.old.log self.new.log) }
        ensures stands { OnOk result ((F : Cnf) (closing : List Clause) (steps : List Step) → HasSearched F closing steps self.old
            → Rup (live_in (after_steps (map_of F) steps)) (map negation failure.now.core.items) failure.now.hints.items
            → HasSearched F (closing ++ map negation failure.now.core.items ∷ []) (steps ++ Add (last_of self.new.session) (map negation failure.now.core.items) failure.now.hints.items [] ∷ []) self.new) }
    {
        let clause = negated(alloc, &failure.core)?;
        self.session.give(&clause)?;
        let id = self.session.last();
        put_lemma(alloc, &mut self.log, id, &clause, &failure.hints)?;
        Ok(())
    }

    /// Searches under a cube until there is an assignment, a lemma closes the cube, or `limit` lemmas are learnt.
    pub(crate) fn search(
        &mut self,
        alloc: Global,
        cube: &[Lit],
        limit: u64,
    ) -> Result<Found, AllocError>
        requires ready { IsReady P.is_ready P.attached self.old.session }
        requires within { All (IsWithin (vars_of self.old.session)) cube.now }
        requires distinct { IsDistinct nat_eq (map var_of cube.now) }
        ensures ready { OnOk result (IsReady P.is_ready P.attached self.new.session) }
        ensures vars { OnOk result (vars_of self.new.session ≡ vars_of self.old.session) }
        ensures longer { OnOk result (Begins self.old.log self.new.log) }
        ensures searched { IfOk result (λ found. (F : Cnf) (closing : List Clause) (steps : List Step) → HasSearched F closing steps self.old → HasFound F closing steps cube.now limit found self.new) }
    {
        let answer = self.ask(alloc, cube, limit)?;
        match answer {
            Answer::Satisfied(values) => Ok(Found::Model(values)),
            Answer::Failed(failure) => {
                self.close(alloc, &failure)?;
                Ok(Found::Closed)
            }
            Answer::Unknown => Ok(Found::Limit),
        }
    }

    /// Ends the session, and answers the log.
    pub(crate) fn into_log(self) -> PackedText
        ensures { result ≡ self.entry.log }
    {
        let SearchSession { session: _, log } = self;
        log
    }
}
