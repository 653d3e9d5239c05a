//! A check of a session, of two texts: the events (clauses and queries of the user) and the proof
//! (lemmas and answers of the solver). Each comes in pieces, and `wants` tells which is read next.

ghost use Rattle.dimacs.specs.logic.Limits.{Limits, written};
ghost use Rattle.std.specs.Prelude.{◌≡◌, ◌≢◌, ◌<◌, ◌≤◌, ℕ, List, [], ◌∷◌, ◌++◌, None, true, false, IfOk, length, take};
ghost use Rattle.lrat_text.specs.Lines.{IsOpen};
ghost use Rattle.sessions.specs.Check.{Finishes, HasTaken, KeepsEnds, events_ended, proof_ended, wanted};
ghost use Rattle.sessions.specs.inner.Feeding.{EndsRow, HearsRow, closing};
ghost use Rattle.sessions.specs.Rows.{event_of};
ghost use Rattle.sessions.specs.inner.Sides.{fault_at};

use crate::event_lines::{EventLines, Sent};
use crate::proof_side::{Phase, ProofSide};
use crate::tally::Tally;
use dimacs::Limits;
use icnf::{IcnfFault, Kind};
use lrat_check::CheckFault;
use lrat_text::cut_line;
use std::alloc::{AllocError, Global};

/// Which input a check reads next.
#[derive(Clone, Copy, Debug, PartialEq, Eq)]
pub enum Wants {
    /// Bytes of the proof, or that it has ended.
    Proof,
    /// Bytes of the events, or that they have ended.
    Events,
    /// Nothing: the result is final.
    Nothing,
}

/// Why a session is not verified.
#[derive(Clone, Copy, Debug, PartialEq, Eq)]
pub enum SessionFault {
    /// The events have this fault.
    Events(IcnfFault),
    /// The proof has this first fault, after the answers before it, which are right; `before` counts them.
    Proof { fault: CheckFault, before: Tally },
    /// `finish` was called while the check still wanted an input.
    Unfinished,
}

/// A check of a session. It keeps the given clauses, the live lemmas, and the unfinished last line of each text.
pub struct SessionCheck {
    /// The proof's side: the state of the session, and what the proof waits for.
    pub(crate) proof: ProofSide,
    /// The reader of the events' lines.
    pub(crate) events: EventLines,
    /// How many lines of events were read.
    pub(crate) read: u64,
    /// The bytes of events after the last LF: the line that has not ended.
    pub(crate) begun: Vec<u8>,
    /// The first fault of the events, if one is found.
    pub(crate) fault: Option<IcnfFault>,
}

impl Drop for SessionCheck {
    fn drop(self) {
        let SessionCheck {
            proof: _,
            events: _,
            read: _,
            begun: _,
            fault: _,
        } = self;
    }
}

impl SessionCheck {
    /// A check within the written limits that has taken no byte.
    pub fn new(alloc: Global) -> Result<SessionCheck, AllocError>
        ensures taken { IfOk result (HasTaken written [] []) }
        ensures events { IfOk result (λ x. events_ended x ≡ false) }
        ensures proof { IfOk result (λ x. proof_ended x ≡ false) }
    {
        SessionCheck::within(alloc, Limits::written())
    }

    /// A check within these limits that has taken no byte. The greatest variable of the proof is 2,000,000, or twice that of the limits if
    /// it is more.
    pub fn within(alloc: Global, limits: Limits) -> Result<SessionCheck, AllocError>
        ensures taken { IfOk result (HasTaken limits [] []) }
        ensures events { IfOk result (λ x. events_ended x ≡ false) }
        ensures proof { IfOk result (λ x. proof_ended x ≡ false) }
    {
        let proof = ProofSide::new(alloc, limits)?;
        Ok(SessionCheck {
            proof,
            events: EventLines::within(alloc, limits),
            read: 0,
            begun: Vec::new(alloc),
            fault: None,
        })
    }

    /// Answers which input is wanted next. Events are wanted only if a line of the proof awaits one, or if nothing of the proof is wanted
    /// any more.
    pub fn wants(&self) -> Wants
        ensures { result ≡ wanted self.now }
    {
        if self.fault.is_some() {
            return Wants::Nothing;
        }
        match self.proof.phase {
            Phase::Reading => Wants::Proof,
            Phase::Clause | Phase::Query | Phase::Ended | Phase::Stopped(_) => {
                if self.proof.no_event {
                    Wants::Nothing
                } else {
                    Wants::Events
                }
            }
        }
    }

    /// Takes bytes of the proof up to the first LF, if the proof is wanted. Answers how many bytes were taken; 0 if the proof is not
    /// wanted.
    pub fn feed_proof(&mut self, piece: &[u8]) -> usize
        ensures few { result ≤ length piece.now }
        ensures some { wanted self.old ≡ Wants.Proof → 0 < length piece.now → 0 < result }
        ensures ends { KeepsEnds self.old self.new }
        ensures taken { (L : Limits) (e p : List ℕ) → HasTaken L e p self.old → HasTaken L e (p ++ take result piece.now) self.new }
    {
        match self.wants() {
            Wants::Proof => self.feed_reading(piece),
            Wants::Events | Wants::Nothing => 0,
        }
    }

    /// Takes bytes of the proof up to the first LF, while `wants` names the proof. Answers how many
    /// bytes were taken.
    fn feed_reading(&mut self, piece: &[u8]) -> usize
        requires { wanted self.old ≡ Wants.Proof }
        ensures few { result ≤ length piece.now }
        ensures some { 0 < length piece.now → 0 < result }
        ensures ends { KeepsEnds self.old self.new }
        ensures taken { (L : Limits) (e p : List ℕ) → HasTaken L e p self.old → HasTaken L e (p ++ take result piece.now) self.new }
    {
        self.proof.feed(piece)
    }

    /// Ends the proof. Does nothing if the proof is not wanted.
    pub fn end_proof(&mut self)
        ensures ended { ¬ (wanted self.new ≡ Wants.Proof) }
        ensures events { events_ended self.new ≡ events_ended self.old }
        ensures taken { (L : Limits) (e p : List ℕ) → HasTaken L e p self.old → HasTaken L e p self.new }
    {
        match self.wants() {
            Wants::Proof => self.proof.end(),
            Wants::Events | Wants::Nothing => {}
        }
    }

    /// Hands the event of a line to the proof's side, which awaits it; a line without an event,
    /// such as a comment, hands nothing on.
    fn hear(&mut self, sent: Sent)
        requires { self.old.proof.phase ≢ Phase.Reading }
        ensures hears { HearsRow (event_of sent self.old.events.read.literals) self.old.proof self.new.proof }
        ensures same { self.new ≡ record self.old { proof = self.new.proof } }
        ensures flag { self.new.proof.no_event ≡ self.old.proof.no_event }
        ensures byte { self.new.proof.no_byte ≡ self.old.proof.no_byte }
    {
        match sent {
            Sent::Nothing => {}
            Sent::Clause => self.proof.hear(Sent::Clause, self.events.literals()),
            Sent::Query => self.proof.hear(Sent::Query, self.events.literals()),
        }
    }

    /// Reads the line of events in `begun`, which is complete, and hands its event to the proof's
    /// side. A fault is kept for `finish`.
    fn end_row(&mut self)
        requires waits { self.old.proof.phase ≢ Phase.Reading }
        requires fine { self.old.fault ≡ None }
        ensures row { EndsRow self.old self.new }
        ensures flag { self.new.proof.no_event ≡ self.old.proof.no_event }
        ensures byte { self.new.proof.no_byte ≡ self.old.proof.no_byte }
    {
        let Some(line) = self.read.checked_add(1) else {
            self.fault = Some(IcnfFault::from(AllocError));
            return;
        };
        match self.events.read(line, &self.begun) {
            Ok(sent) => {
                self.read = line;
                self.begun.clear();
                self.hear(sent);
            }
            Err(fault) => self.fault = Some(fault),
        }
    }

    /// Keeps a piece without LF in `begun`: the line of events goes on in the next piece.
    fn begin_with(&mut self, piece: &[u8])
        requires fine { self.old.fault ≡ None }
        requires more { self.old.proof.no_event ≡ false }
        ensures taken { (L : Limits) (e p : List ℕ) → IsOpen piece.now → HasTaken L e p self.old → HasTaken L (e ++ piece.now) p self.new }
        ensures ends { KeepsEnds self.old self.new }
    {
        match self.begun.extend_from_slice(piece) {
            Ok(()) => {}
            Err(_) => self.fault = Some(IcnfFault::from(AllocError)),
        }
    }

    /// Completes the line of events in `begun` by these bytes, up to its LF, and reads it.
    fn end_with(&mut self, text: &[u8])
        requires waits { self.old.proof.phase ≢ Phase.Reading }
        requires fine { self.old.fault ≡ None }
        requires more { self.old.proof.no_event ≡ false }
        ensures taken { (L : Limits) (e p : List ℕ) → IsOpen text.now → HasTaken L e p self.old → HasTaken L (e ++ (text.now ++ 10 ∷ [])) p self.new }
        ensures ends { KeepsEnds self.old self.new }
    {
        match self.begun.extend_from_slice(text) {
            Ok(()) => self.end_row(),
            Err(_) => self.fault = Some(IcnfFault::from(AllocError)),
        }
    }

    /// Takes bytes of the events up to the first LF, if the events are wanted. Answers how many bytes were taken; 0 if the events are not
    /// wanted.
    pub fn feed_events(&mut self, piece: &[u8]) -> usize
        ensures few { result ≤ length piece.now }
        ensures some { wanted self.old ≡ Wants.Events → 0 < length piece.now → 0 < result }
        ensures ends { KeepsEnds self.old self.new }
        ensures taken { (L : Limits) (e p : List ℕ) → HasTaken L e p self.old → HasTaken L (e ++ take result piece.now) p self.new }
    {
        match self.wants() {
            Wants::Events => self.feed_waiting(piece),
            Wants::Proof | Wants::Nothing => 0,
        }
    }

    /// Takes bytes of the events up to the first LF, while `wants` names the events. Answers how
    /// many bytes were taken.
    fn feed_waiting(&mut self, piece: &[u8]) -> usize
        requires { wanted self.old ≡ Wants.Events }
        ensures few { result ≤ length piece.now }
        ensures some { 0 < length piece.now → 0 < result }
        ensures ends { KeepsEnds self.old self.new }
        ensures taken { (L : Limits) (e p : List ℕ) → HasTaken L e p self.old → HasTaken L (e ++ take result piece.now) p self.new }
    {
        match cut_line(piece) {
            Some((text, _)) => {
                self.end_with(text);
                text.len() + 1
            }
            None => {
                self.begin_with(piece);
                piece.len()
            }
        }
    }

    /// Notes the fault of events that end without a header, unless they have a fault already.
    fn close(&mut self)
        ensures { self.new ≡ record self.old { fault = closing self.old.fault self.old.events.progress.headed self.old.read } }
    {
        match self.fault {
            Some(_) => {}
            None => {
                if !self.events.is_headed() {
                    self.fault = Some(IcnfFault {
                        kind: Kind::NoHeader,
                        line: self.read,
                    });
                }
            }
        }
    }

    /// Ends the events, while `wants` names them: the bytes after the last LF are their last line.
    fn end_waiting(&mut self)
        requires { wanted self.old ≡ Wants.Events }
        ensures ended { self.new.proof.no_event ≡ true }
        ensures byte { self.new.proof.no_byte ≡ self.old.proof.no_byte }
        ensures taken { (L : Limits) (e p : List ℕ) → HasTaken L e p self.old → HasTaken L e p self.new }
    {
        self.end_row();
        self.proof.end_events();
        self.close();
    }

    /// Ends the events. Does nothing if the events are not wanted.
    pub fn end_events(&mut self)
        ensures ended { ¬ (wanted self.new ≡ Wants.Events) }
        ensures proof { proof_ended self.new ≡ proof_ended self.old }
        ensures taken { (L : Limits) (e p : List ℕ) → HasTaken L e p self.old → HasTaken L e p self.new }
    {
        match self.wants() {
            Wants::Events => self.end_waiting(),
            Wants::Proof | Wants::Nothing => {}
        }
    }

    /// The fault (18) of a line of the proof that waits for an event after the events have ended.
    fn unheard(&self) -> SessionFault
        ensures { result ≡ SessionFault.Proof (fault_at self.now.proof.line 18 0) self.now.proof.lines.known.tally }
    {
        SessionFault::Proof {
            fault: CheckFault {
                number: 18,
                line: self.proof.line,
                text: 0,
            },
            before: self.proof.lines.known.tally,
        }
    }

    /// Answers how many answers of each kind there are, all of them right; or the first fault. Err is `Unfinished` if an input is still
    /// wanted.
    pub fn finish(&self) -> Result<Tally, SessionFault>
        ensures { (L : Limits) (e p : List ℕ) → HasTaken L e p self.now → Finishes L e p self.now result }
    {
        if let Some(fault) = self.fault {
            return Err(SessionFault::Events(fault));
        }
        if !self.proof.no_event {
            return Err(SessionFault::Unfinished);
        }
        match self.proof.phase {
            Phase::Ended => Ok(self.proof.lines.known.tally),
            Phase::Stopped(fault) => Err(SessionFault::Proof {
                fault,
                before: self.proof.lines.known.tally,
            }),
            Phase::Clause => Err(self.unheard()),
            Phase::Query => Err(self.unheard()),
            Phase::Reading => Err(SessionFault::Unfinished),
        }
    }
}
