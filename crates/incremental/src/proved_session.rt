//! A solver session that writes a LIDRUP proof of its answers: clauses are given, queries are answered.

ghost use Rattle.std.specs.Prelude.{◌≡◌, ℕ, ◌+◌, ◌^◌, ◌<◌, ◌≤◌, List, [], ◌∷◌, ◌++◌, length, All, IfOk, OnOk};
ghost use Rattle.dimacs.specs.logic.Limits.{AreNoMore, Limits, large};
ghost use Rattle.dimacs.specs.logic.Literal.{IsWithin};
ghost use Rattle.cube_solve.specs.Session.{IsRightAnswer, IfUnknown};
ghost use Rattle.sessions.specs.Answers.{Event, Asked, Given};
ghost use Rattle.sessions.specs.Events.{clauses_of};
ghost use Rattle.incremental.specs.SessionHistory.{IsAccepted, IsSessionReady, HasHistory, Told, last_in, literal_of, literals_from, told_of, vars_in};
ghost use Rattle.incremental.specs.inner.ReaderSteps.{WritesAnswer, IsShort};

use crate::lidrup_lines::{Scratch, put_core, put_given, put_line, put_listed};
use cube_solve::Answer;
use dimacs::{Assignment, Builder, Lit, Var};
use std::alloc::{AllocError, Global};
use watches::Propagator;

/// An incremental solver over a fixed number of variables, with the LIDRUP text of all that was given, asked, answered and learnt.
pub struct Session<'a, P> {
    alloc: Global,
    /// The solver session. Between two calls its own log is empty: its lines are moved to `out`.
    pub(crate) search: cube_solve::Session<'a, P>,
    /// The bytes of the text that are not handed out yet.
    pub(crate) out: Vec<u8>,
    /// Buffers for the lines that are written.
    scratch: Scratch,
}

impl<P> Drop for Session<'_, P> {
    fn drop(self) {
        let Session {
            alloc: _,
            search: _,
            out: _,
            scratch: _,
        } = self;
    }
}

/// The literal of a variable that an assignment makes true: the variable itself if its value is
/// true, or else its negation.
fn true_literal(number: u32, value: bool) -> Lit
    requires above { 0 < number }
    requires below { number < 2 ^ 31 }
    ensures { result ≡ literal_of number value }
{
    let var = Var::new(number);
    if value {
        Lit::positive(var)
    } else {
        Lit::negative(var)
    }
}

/// Builds the literals that an assignment makes true, in the order of their variables.
fn literals_of(alloc: Global, values: &Assignment) -> Result<Vec<Lit>, AllocError>
    requires { length values.now ≤ 199999999 }
    ensures { IfOk result (λ literals. literals.items ≡ literals_from 1 values.now) }
{
    let mut literals = Vec::with_capacity(alloc, values.len())?;
    let mut number = 1;
    for &value in values.values() {
        literals.push(true_literal(number, value))?;
        number += 1;
    }
    Ok(literals)
}

/// Appends the lines of an answer: its status, and then its model or its core. `line` is a buffer that is reused.
fn write_answer(
    alloc: Global,
    out: &mut Vec<u8>,
    line: &mut Vec<u8>,
    answer: &Answer,
) -> Result<(), AllocError>
    requires { IsShort 199999999 answer.now }
    ensures { OnOk result ((most : ℕ) → most ≤ 199999999 → IsShort most answer.now → WritesAnswer most answer.now out.old.items out.new.items) }
{
    match answer {
        Answer::Satisfied(values) => {
            let model = literals_of(alloc, values)?;
            put_line(out, b"s SATISFIABLE", b"")?;
            put_listed(out, line, b'm', &model)
        }
        Answer::Failed(failure) => {
            put_line(out, b"s UNSATISFIABLE", b"")?;
            put_core(out, line, &failure.core, &failure.hints)
        }
        Answer::Unknown => put_line(out, b"s UNKNOWN", b""),
    }
}

impl<'a, P: Propagator> Session<'a, P> {
    /// A session over the variables from 1 to `vars`, without clauses. The propagator must have no clause attached.
    pub fn new(
        alloc: Global,
        propagator: &'a mut P,
        vars: u32,
    ) -> Result<Session<'a, P>, AllocError>
        requires limit { vars ≤ 99999999 }
        requires free { P.attached propagator.old ≡ [] }
        ensures fit { IfOk result (IsSessionReady P.is_ready P.attached) }
        ensures vars { IfOk result (λ s. vars_in s ≡ vars) }
        ensures stands { IfOk result (λ s. (L : Limits) → AreNoMore L large → vars ≤ L.vars → HasHistory L [] [] [] s) }
    {
        let formula = Builder::new(alloc)?.finish(vars)?;
        Ok(Session {
            alloc,
            search: cube_solve::Session::new(alloc, propagator, formula.as_base())?,
            out: Vec::new(alloc),
            scratch: Scratch::new(alloc),
        })
    }

    /// Ends the session, and answers its search, the bytes that are not handed out yet, and the buffers.
    fn into_parts(self) -> (cube_solve::Session<'a, P>, Vec<u8>, Scratch)
        ensures { result ≡ (self.entry.search, self.entry.out, self.entry.scratch) }
    {
        let Session {
            alloc: _,
            search,
            out,
            scratch,
        } = self;
        (search, out, scratch)
    }

    /// Ends the session, and answers the same session over the variables from 1 to `vars`, with the propagator `propagator`, to which no
    /// clause may be attached. This takes time linear in the greatest number of a clause so far, so a caller should double the variables
    /// each time.
    pub fn grown<'b>(self, propagator: &'b mut P, vars: u32) -> Result<Session<'b, P>, AllocError>
        requires fit { IsSessionReady P.is_ready P.attached self }
        requires free { P.attached propagator.old ≡ [] }
        requires more { vars_in self ≤ vars }
        requires limit { vars ≤ 99999999 }
        ensures fit { IfOk result (IsSessionReady P.is_ready P.attached) }
        ensures vars { IfOk result (λ s. vars_in s ≡ vars) }
        ensures stands { IfOk result (λ s. (L : Limits) (E : List Event) (told : Told) (text : List ℕ) → vars ≤ L.vars → HasHistory L E told text self.entry → HasHistory L E told text s) }
    {
        let alloc = self.alloc;
        let (search, out, scratch) = self.into_parts();
        Ok(Session {
            alloc,
            search: search.grown(propagator, vars)?,
            out,
            scratch,
        })
    }

    /// Adds a clause over the session's variables. The clause may repeat literals, and may have a literal and its negation. Err if memory
    /// is refused, or after 2^47 clauses and lemmas. After an Err nothing is known of the session.
    pub fn give(&mut self, clause: &[Lit]) -> Result<(), AllocError>
        requires fit { IsSessionReady P.is_ready P.attached self.old }
        requires within { All (IsWithin (vars_in self.old)) clause.now }
        ensures fit { OnOk result (IsSessionReady P.is_ready P.attached self.new) }
        ensures vars { OnOk result (vars_in self.new ≡ vars_in self.old) }
        ensures stands { OnOk result ((L : Limits) (E : List Event) (told : Told) (text : List ℕ) → HasHistory L E told text self.old → HasHistory L (E ++ Given clause.now ∷ []) told text self.new) }
    {
        self.search.give(clause)?;
        let id = self.search.last();
        put_given(&mut self.out, &mut self.scratch.line, id, clause)
    }

    /// Answers a query over the session's variables, with at most `limit` more lemmas, which are kept. The answer is right for the clauses
    /// that were given so far. The query may repeat literals, and may have a literal and its negation. Err if memory is refused, or after
    /// 2^47 clauses and lemmas. After an Err nothing is known of the session.
    pub fn answer(&mut self, query: &[Lit], limit: u64) -> Result<Answer, AllocError>
        requires fit { IsSessionReady P.is_ready P.attached self.old }
        requires within { All (IsWithin (vars_in self.old)) query.now }
        ensures fit { OnOk result (IsSessionReady P.is_ready P.attached self.new) }
        ensures vars { OnOk result (vars_in self.new ≡ vars_in self.old) }
        ensures stands { IfOk result (λ answer. (L : Limits) (E : List Event) (told : Told) (text : List ℕ) → HasHistory L E told text self.old → HasHistory L (E ++ Asked query.now ∷ []) (told ++ told_of answer ∷ []) text self.new) }
        ensures right { IfOk result (λ answer. (L : Limits) (E : List Event) (told : Told) (text : List ℕ) → HasHistory L E told text self.old → IsRightAnswer (vars_in self.old) (clauses_of E) query.now answer) }
        ensures unknown { IfOk result (λ answer. IfUnknown answer (last_in self.new ≡ last_in self.old + limit)) }
        ensures most { OnOk result (last_in self.new ≤ last_in self.old + limit) }
        ensures grows { OnOk result ((L : Limits) (E : List Event) (told : Told) (text : List ℕ) → HasHistory L E told text self.old → (more : List ℕ) × (self.new.out.items ≡ self.old.out.items ++ more)) }
    {
        put_listed(&mut self.out, &mut self.scratch.line, b'q', query)?;
        let answer = self.search.ask(query, limit)?;
        let log = self.search.take_log();
        self.scratch.put_log(self.alloc, &mut self.out, &log)?;
        write_answer(self.alloc, &mut self.out, &mut self.scratch.line, &answer)?;
        Ok(answer)
    }

    /// The bytes of the text that were written since the last call of `forget`.
    pub fn written(&self) -> &[u8]
        ensures bytes { result.now ≡ self.now.out.items }
        // after the bytes that were handed out, they are accepted
        ensures accepted { (L : Limits) (E : List Event) (told : Told) (text : List ℕ) → HasHistory L E told text self.now → IsAccepted L E told (text ++ result.now) }
    {
        &self.out
    }

    /// Drops the bytes that `written` answers, after the caller has handed them out.
    pub fn forget(&mut self)
        ensures fit { IsSessionReady P.is_ready P.attached self.old → IsSessionReady P.is_ready P.attached self.new }
        ensures vars { vars_in self.new ≡ vars_in self.old }
        ensures stands { (L : Limits) (E : List Event) (told : Told) (text : List ℕ) → HasHistory L E told text self.old → HasHistory L E told (text ++ self.old.out.items) self.new }
        ensures empty { self.new.out.items ≡ [] }
    {
        self.out.clear();
    }
}
