//! `session`: reads events line by line, answers each query, and writes the proof before each answer.

ghost use Rattle.std.specs.Prelude.{◌≡◌, ◌<◌, ◌≤◌, ◌++◌, ℕ, List, [], Option, IfOk, IfErr, OnErr, OnOk};
ghost use Rattle.commands.specs.Known.{HoldsOf};
ghost use Rattle.commands.specs.Refusals.{IsRefusedAs, IsOneOf, IsWanting};
ghost use Rattle.commands.specs.SessionMoments.{Ends, EndsAs, IsLeft, Moment};
ghost use Rattle.commands.specs.inner.SessionLoop.{CanRun, EndsSo, HasWritten, IsLeftOf, GoesOnOrIsUnheard, IsRunning, Waits};
ghost use Rattle.commands.specs.inner.EventSource.{IsWaiting};
ghost use Rattle.incremental.specs.SessionHistory.{IsSessionReady, vars_in};
ghost use Rattle.icnf.specs.declared.fault.IcnfFault.{IcnfFault};
ghost use Rattle.leaves.specs.Leaf.{Prints};
ghost use Rattle.sessions.specs.Heard.{heard_within};
ghost use Rattle.sessions.specs.Rows.{event_of};

use crate::event_source::{EventSource, Next};
use crate::outputs::Outputs;
use crate::session_lines::{put_answer, status_of};
use crate::whole_source::out_of_memory;
use dimacs::Limits;
use icnf::IcnfFault;
use incremental::Session;
use reports::{Refusal, Report};
use sessions::{Sent, SessionFault, session_report};
use std::alloc::Global;
use std::io::BufRead;
use watches::{Propagator, Watched};

/// How many variables a session has at first, if it may have so many.
const FIRST: u32 = 64;

/// How queries are asked, and what is printed of their answers.
#[derive(Clone, Copy)]
pub struct Asking {
    /// The limits on the events.
    pub limits: Limits,
    /// The most lemmas that are learnt for one query.
    pub limit: u64,
    /// Whether `v` and `f` lines are printed.
    pub witness: bool,
}

/// The state of the loop over the lines.
struct Run<B> {
    /// How queries are asked, which stays.
    asking: Asking,
    /// The events, of which the last line may be pending.
    events: EventSource<B>,
    /// The status of the last answer; 0 without one.
    status: u8,
    /// The buffer for the lines of one answer.
    text: Vec<u8>,
}

impl<B: Drop> Drop for Run<B> {
    fn drop(self) {
        let Run {
            asking: _,
            events: _,
            status: _,
            text: _,
        } = self;
    }
}

/// Why the loop over the lines stops.
#[derive(Clone, Copy)]
enum Pause {
    /// The last event is pending: it has a greater variable than the session. Its kind is kept.
    Outgrown(Sent),
    /// The end of the events, or their first fault.
    Ended(Option<IcnfFault>),
    /// Printing failed: nobody reads the answers any more.
    Unheard,
}

/// How the run of a session ended.
#[derive(Clone, Copy)]
enum Ended {
    /// At the end of the events, or at their first fault.
    Whole(Option<IcnfFault>),
    /// Printing failed.
    Unheard,
}

/// Appends to the proof's file the bytes that the session has produced since the last call. It errs
/// if they cannot all be written or memory runs out.
fn hand_out<P: Propagator, O: Outputs>(
    session: &mut Session<'_, P>,
    outputs: &mut O,
) -> Result<(), Refusal>
    ensures fit { OnOk result (IsSessionReady P.is_ready P.attached session.old → IsSessionReady P.is_ready P.attached session.new) }
    ensures vars { OnOk result (vars_in session.new ≡ vars_in session.old) }
    ensures written { OnOk result (HasWritten O.has outputs.old outputs.new session.old session.new) }
    ensures some { OnErr result ((proof : List ℕ) (moments : List Moment) → O.has outputs.old proof moments → (written : List ℕ) × O.has outputs.new (proof ++ written) moments) }
    ensures refused { IfErr result (IsRefusedAs Refusal.Writing) }
    ensures unwritten { IfErr result (λ f. f ≡ Refusal.Writing → O.unwritten outputs.new) }
{
    outputs.prove(session.written())?;
    session.forget();
    Ok(())
}

impl<B: BufRead + Drop> Run<B> {
    /// Answers the query of the last line: writes the proof up to the answer, and then prints the answer. False if not all of the answer
    /// was printed.
    fn answer<P: Propagator, O: Outputs>(
        &mut self,
        session: &mut Session<'_, P>,
        outputs: &mut O,
    ) -> Result<bool, Refusal>
        requires fit { IsSessionReady P.is_ready P.attached session.old }
        requires within { self.old.events.greatest ≤ vars_in session.old }
        requires literals { IsWaiting Sent.Query self.old.events.greatest self.old.events.lines.read.literals }
        ensures fit { OnOk result (IsSessionReady P.is_ready P.attached session.new) }
        ensures vars { OnOk result (vars_in session.new ≡ vars_in session.old) }
        ensures same { self.new.events ≡ self.old.events }
        ensures asking { self.new.asking ≡ self.old.asking }
        ensures goes { (all : Option (List ℕ)) → IsRunning all B.remaining (O.has outputs.old) (event_of Sent.Query self.old.events.lines.read.literals) self.old session.old
            → IfOk result (λ b. GoesOnOrIsUnheard all B.remaining (O.has outputs.new) (O.unheard outputs.new) b self.new session.new) }
        ensures left { (all : Option (List ℕ)) → IsRunning all B.remaining (O.has outputs.old) (event_of Sent.Query self.old.events.lines.read.literals) self.old session.old
            → OnErr result (IsLeftOf all (O.has outputs.new) self.old.asking) }
        ensures refused { IfErr result (IsRefusedAs Refusal.Writing) }
        ensures unwritten { IfErr result (λ f. f ≡ Refusal.Writing → O.unwritten outputs.new) }
    {
        let answer = match session.answer(self.events.literals(), self.asking.limit) {
            Ok(answer) => answer,
            Err(error) => return Err(out_of_memory(error)),
        };
        let vars = self.events.greatest();
        self.text.clear();
        match put_answer(&mut self.text, &answer, vars, self.asking.witness) {
            Ok(()) => {}
            Err(error) => return Err(out_of_memory(error)),
        }
        hand_out(session, outputs)?;
        self.status = status_of(&answer);
        Ok(outputs.print(&self.text))
    }

    /// Takes the last line, which is of the kind `sent`: adds its clause, or answers its query. False if not all of an answer was printed.
    fn take_sent<P: Propagator, O: Outputs>(
        &mut self,
        session: &mut Session<'_, P>,
        outputs: &mut O,
        sent: Sent,
    ) -> Result<bool, Refusal>
        requires fit { IsSessionReady P.is_ready P.attached session.old }
        requires within { self.old.events.greatest ≤ vars_in session.old }
        requires literals { IsWaiting sent self.old.events.greatest self.old.events.lines.read.literals }
        ensures fit { OnOk result (IsSessionReady P.is_ready P.attached session.new) }
        ensures vars { OnOk result (vars_in session.new ≡ vars_in session.old) }
        ensures same { self.new.events ≡ self.old.events }
        ensures asking { self.new.asking ≡ self.old.asking }
        ensures goes { (all : Option (List ℕ)) → IsRunning all B.remaining (O.has outputs.old) (event_of sent self.old.events.lines.read.literals) self.old session.old
            → IfOk result (λ b. GoesOnOrIsUnheard all B.remaining (O.has outputs.new) (O.unheard outputs.new) b self.new session.new) }
        ensures left { (all : Option (List ℕ)) → IsRunning all B.remaining (O.has outputs.old) (event_of sent self.old.events.lines.read.literals) self.old session.old
            → OnErr result (IsLeftOf all (O.has outputs.new) self.old.asking) }
        ensures refused { IfErr result (IsRefusedAs Refusal.Writing) }
        ensures unwritten { IfErr result (λ f. f ≡ Refusal.Writing → O.unwritten outputs.new) }
    {
        match sent {
            Sent::Nothing => Ok(true),
            Sent::Clause => match session.give(self.events.literals()) {
                Ok(()) => Ok(true),
                Err(error) => Err(out_of_memory(error)),
            },
            Sent::Query => self.answer(session, outputs),
        }
    }

    /// Takes the last line, which is of the kind `first`, and those after it, and answers why it stops: an event has a greater variable
    /// than `vars` and is pending, the events ended or have a fault, or an answer was not printed.
    fn take_lines<P: Propagator, O: Outputs>(
        &mut self,
        session: &mut Session<'_, P>,
        outputs: &mut O,
        vars: u32,
        first: Sent,
    ) -> Result<Pause, Refusal>
        requires fit { IsSessionReady P.is_ready P.attached session.old }
        requires vars { vars_in session.old ≡ vars }
        requires waits { IsWaiting first self.old.events.greatest self.old.events.lines.read.literals }
        ensures fit { OnOk result (IsSessionReady P.is_ready P.attached session.new) }
        ensures vars { OnOk result (vars_in session.new ≡ vars) }
        ensures waits { IfOk result (Waits vars self.new.events.greatest self.new.events.lines.read.literals) }
        ensures asking { self.new.asking ≡ self.old.asking }
        ensures goes { (all : Option (List ℕ)) → IsRunning all B.remaining (O.has outputs.old) (event_of first self.old.events.lines.read.literals) self.old session.old
            → IfOk result (λ pause. CanRun all B.remaining (O.has outputs.new) (O.unheard outputs.new) pause self.new session.new) }
        ensures left { (all : Option (List ℕ)) → IsRunning all B.remaining (O.has outputs.old) (event_of first self.old.events.lines.read.literals) self.old session.old
            → OnErr result (IsLeftOf all (O.has outputs.new) self.old.asking) }
        ensures refused { IfErr result (IsOneOf Refusal.Input Refusal.Writing) }
        ensures unwritten { IfErr result (λ f. f ≡ Refusal.Writing → O.unwritten outputs.new) }
    {
        let mut sent = first;
        'lines: for _ in 0..u64::MAX {
            if self.events.greatest() > vars {
                return Ok(Pause::Outgrown(sent));
            }
            if !self.take_sent(session, outputs, sent)? {
                return Ok(Pause::Unheard);
            }
            match self.events.next()? {
                Next::Line(next) => sent = next,
                Next::Ended => return Ok(Pause::Ended(None)),
                Next::Faulty(fault) => return Ok(Pause::Ended(Some(fault))),
            }
        }
        Err(Refusal::Input)
    }

    /// Takes the last line, of the kind `first`, and those after it to the end of the events. At an
    /// event of a greater variable than the session has, `vars`, a session of more variables takes
    /// over, in a call within this one, since a session borrows its propagator.
    fn go_on<O: Outputs>(
        &mut self,
        alloc: Global,
        mut session: Session<'_, Watched>,
        outputs: &mut O,
        vars: u32,
        first: Sent,
    ) -> Result<Ended, Refusal>
        requires fit { IsSessionReady ⟦<Watched as Propagator>⟧.is_ready ⟦<Watched as Propagator>⟧.attached session }
        requires vars { vars_in session ≡ vars }
        requires limit { vars ≤ self.old.events.lines.progress.limits.vars }
        requires waits { IsWaiting first self.old.events.greatest self.old.events.lines.read.literals }
        ensures asking { self.new.asking ≡ self.old.asking }
        ensures goes { (all : Option (List ℕ)) → IsRunning all B.remaining (O.has outputs.old) (event_of first self.old.events.lines.read.literals) self.old session.entry
            → IfOk result (EndsSo all (O.has outputs.new) (O.unheard outputs.new) self.old.asking self.new.status) }
        ensures left { (all : Option (List ℕ)) → IsRunning all B.remaining (O.has outputs.old) (event_of first self.old.events.lines.read.literals) self.old session.entry
            → OnErr result (IsLeftOf all (O.has outputs.new) self.old.asking) }
        ensures refused { IfErr result (IsOneOf Refusal.Input Refusal.Writing) }
        ensures unwritten { IfErr result (λ f. f ≡ Refusal.Writing → O.unwritten outputs.new) }
    {
        match self.take_lines(&mut session, outputs, vars, first)? {
            Pause::Ended(fault) => {
                hand_out(&mut session, outputs)?;
                Ok(Ended::Whole(fault))
            }
            Pause::Unheard => Ok(Ended::Unheard),
            Pause::Outgrown(sent) => {
                let limit = self.events.most();
                let more = grown_to(vars, self.events.greatest(), limit);
                let mut watched = Watched::new(alloc);
                match session.grown(&mut watched, more) {
                    Ok(grown) => self.go_on(alloc, grown, outputs, more, sent),
                    Err(error) => Err(out_of_memory(error)),
                }
            }
        }
    }
}

/// Answers how many variables a session has at first: 64, but at most `most`.
fn first_of(most: u32) -> u32
    ensures { result ≤ most }
{
    FIRST.min(most)
}

/// Answers how many variables the next session has: twice as many as the present one, but at least `needed` and at most `most`.
fn grown_to(vars: u32, needed: u32, most: u32) -> u32
    requires below { vars < needed }
    requires limit { needed ≤ most }
    requires few { most ≤ 99999999 }
    ensures enough { needed ≤ result }
    ensures limit { result ≤ most }
{
    (2 * vars).max(needed).min(most)
}

/// Reports what is printed after the answers: the fault of the events, with status 1, or nothing, with `status`. If an answer could not be
/// printed, nothing, with status 1.
fn report_of(alloc: Global, ended: Ended, status: u8) -> Result<Report, Refusal>
    ensures whole { (fault : Option IcnfFault) → ended ≡ Ended.Whole fault → IfOk result (EndsAs fault status) }
    ensures unheard { ended ≡ Ended.Unheard → IfOk result (Prints 1 []) }
    ensures refused { IfErr result IsWanting }
{
    match ended {
        Ended::Whole(None) => Report::of(alloc, b"", status).map_err(out_of_memory),
        Ended::Whole(Some(fault)) => session_report(alloc, Err(SessionFault::Events(fault))),
        Ended::Unheard => Report::of(alloc, b"", 1).map_err(out_of_memory),
    }
}

/// Answers the queries of a session while its events come, within the limits of `asking`. Each line is taken before more is read. For a
/// query the proof is written up to its answer, and then the answer is printed. The report has what is to be printed after the answers:
/// nothing, or the first fault of the events. If an answer could not be printed, because nobody reads it, the status is 1. It errs if
/// memory runs out, the source cannot be read or the proof not be written.
pub fn answer_session<B: BufRead + Drop, O: Outputs>(
    alloc: Global,
    source: B,
    outputs: &mut O,
    asking: Asking,
) -> Result<Report, Refusal>
    ensures session { O.has outputs.old [] [] → IfOk result (λ r. HoldsOf (B.remaining source) (λ text. Ends (O.has outputs.new) (O.unheard outputs.new) asking (heard_within asking.limits text) r)) }
    ensures left { O.has outputs.old [] [] → OnErr result (HoldsOf (B.remaining source) (λ text. IsLeft (O.has outputs.new) asking (heard_within asking.limits text))) }
    ensures refused { IfErr result (IsOneOf Refusal.Input Refusal.Writing) }
    ensures unwritten { IfErr result (λ f. f ≡ Refusal.Writing → O.unwritten outputs.new) }
{
    let limits = asking.limits;
    let first = first_of(limits.vars());
    let events = EventSource::of(alloc, limits, source);
    let mut run = Run {
        asking,
        events,
        status: 0,
        text: Vec::new(alloc),
    };
    let mut watched = Watched::new(alloc);
    let session = match Session::new(alloc, &mut watched, first) {
        Ok(session) => session,
        Err(error) => return Err(out_of_memory(error)),
    };
    let ended = run.go_on(alloc, session, outputs, first, Sent::Nothing)?;
    report_of(alloc, ended, run.status)
}
