//! The exchange before a turn: what others offer is read, and the shortest offers are taken over.

ghost use Rattle.std.specs.Prelude.{◌≡◌, ◌≤◌, ◌<◌, ℕ, List, All, Contains, IfOk, OnOk, true};
ghost use Rattle.std.specs.Bool.{OnTrue};
ghost use Rattle.dimacs.specs.logic.Cnf.{Cnf};
ghost use Rattle.dimacs.specs.logic.Literal.{Literal, negation};
ghost use Rattle.cell_worker.specs.WorkerLog.{IsWorkerReady, names_in, vars_in};
ghost use Rattle.shared_logs.specs.SharedLogs.{SharedStep};
ghost use Rattle.sharing.specs.inner.Writing.{GoesOn, HasImported, IsWritingSteps};

use crate::folder::Folder;
use crate::inbox::{Inbox, Offered};
use crate::known_leaves::KnownLeaves;
use crate::peer::Peer;
use cell_worker::CellWorker;
use dimacs::Lit;
use icnf::Tree;
use reports::Refusal;
use shared_lines::{is_clause_number, is_name};
use std::alloc::{AllocError, Global};
use watches::Propagator;

/// The greatest number of literals that are taken over before a turn, without those of clauses that close leaves.
const MOST_LITERALS: usize = 3000;

/// The other workers, and what was read of them.
pub(crate) struct Exchange<'a> {
    alloc: Global,
    leaves: KnownLeaves<'a>,
    peers: Vec<Peer>,
    inbox: Inbox,
    /// The place of the next offer that is looked at.
    next: usize,
    /// The buffer of what is read at once.
    room: Vec<u8>,
}

impl Drop for Exchange<'_> {
    fn drop(self) {
        let Exchange {
            alloc: _,
            leaves: _,
            peers: _,
            inbox: _,
            next: _,
            room: _,
        } = self;
    }
}

/// The refusal for an allocation that failed.
fn no_memory<E: Drop>(_error: E) -> Refusal {
    Refusal::NoMemory
}

/// Whether a query has a literal.
fn has(query: &[Lit], literal: Lit) -> bool
    ensures { OnTrue result (Contains query.now literal) }
{
    for &other in query {
        if other == literal {
            return true;
        }
    }
    false
}

/// Whether a clause closes a query: each of its literals is the negation of a literal of the query.
fn closes(query: &[Lit], clause: &[Lit]) -> bool
    ensures { OnTrue result (All (λ l. Contains query.now (negation l)) clause.now) }
{
    if clause.len() > query.len() {
        return false; // it repeats a literal, or does not close the query
    }
    for &literal in clause {
        if !has(query, literal.negate()) {
            return false;
        }
    }
    true
}

impl<'a> Exchange<'a> {
    /// No other worker is known yet. Offers may have variables up to `most`, and those that close leaves of the tree come first.
    pub(crate) fn of(alloc: Global, tree: &'a Tree, most: u32) -> Result<Exchange<'a>, AllocError>
        requires { most ≤ 199999999 }
    {
        Ok(Exchange {
            alloc,
            leaves: KnownLeaves::of(alloc, tree, most)?,
            peers: Vec::new(alloc),
            inbox: Inbox::new(alloc, most),
            next: 0,
            room: Vec::new(alloc),
        })
    }

    /// Notes that the leaf at a place is closed.
    pub(crate) fn note_closed(&mut self, place: usize) {
        self.leaves.note(place);
    }

    /// Notes the workers that came to the folder.
    fn meet<F: Folder>(&mut self, folder: &mut F) -> Result<(), Refusal>
        ensures { (log : List ℕ) → F.has_logged folder.old log → F.has_logged folder.new log }
    {
        'found: for _ in 0..1024 {
            let mut name = Vec::new(self.alloc);
            if !folder.find(self.peers.len(), &mut name)? {
                return Ok(());
            }
            self.peers
                .push(Peer::new(self.alloc, name))
                .map_err(no_memory)?;
        }
        Ok(())
    }

    /// Reads what worker number `row` has offered since the last call.
    fn read_peer<F: Folder>(&mut self, folder: &mut F, row: usize) -> Result<(), Refusal>
        ensures { (log : List ℕ) → F.has_logged folder.old log → F.has_logged folder.new log }
    {
        let Some(peer) = self.peers.get_mut(row) else {
            return Ok(());
        };
        self.room.clear();
        folder.read(row, peer.read, &mut self.room)?;
        peer.take(&self.room, &self.leaves, row, &mut self.inbox)
            .map_err(no_memory)
    }

    /// Reads what others have offered since the last call, once all offers that were read were looked at.
    pub(crate) fn read<F: Folder>(&mut self, folder: &mut F) -> Result<(), Refusal>
        ensures { (log : List ℕ) → F.has_logged folder.old log → F.has_logged folder.new log }
    {
        self.meet(folder)?;
        if self.next < self.inbox.len() {
            return Ok(());
        }
        self.inbox.clear();
        self.next = 0;
        for row in 0..self.peers.len() {
            self.read_peer(folder, row)?;
        }
        self.inbox.sort().map_err(no_memory)
    }

    /// The number that stands for the name of worker number `row` in the worker's log; 0 if it can have none.
    fn number_of<P: Propagator>(
        &mut self,
        worker: &mut CellWorker<'_, P>,
        row: usize,
    ) -> Result<u64, AllocError>
        requires { IsWorkerReady P.is_ready P.attached worker.old }
        ensures ready { OnOk result (IsWorkerReady P.is_ready P.attached worker.new) }
        ensures given { IfOk result (λ number. number ≤ names_in worker.new) }
        ensures stands { OnOk result (GoesOn worker.old worker.new) }
        ensures vars { OnOk result (vars_in worker.new ≡ vars_in worker.old) }
    {
        let Some(peer) = self.peers.get_mut(row) else {
            return Ok(0);
        };
        if 0 < peer.number && peer.number <= worker.names() {
            return Ok(peer.number);
        }
        if !is_name(&peer.name) {
            return Ok(0);
        }
        peer.number = worker.name(&peer.name)?;
        Ok(peer.number)
    }

    /// Takes over an offer, unless it can't be one of a lemma. Answers whether that closes the query.
    fn take<P: Propagator>(
        &mut self,
        worker: &mut CellWorker<'_, P>,
        query: &[Lit],
        offer: Offered,
    ) -> Result<bool, AllocError>
        requires { IsWorkerReady P.is_ready P.attached worker.old }
        ensures ready { OnOk result (IsWorkerReady P.is_ready P.attached worker.new) }
        ensures stands { OnOk result (GoesOn worker.old worker.new) }
        ensures closed { IfOk result (λ closed. OnTrue closed ((F : Cnf) (steps : List SharedStep) (text : List ℕ) → IsWritingSteps F steps text worker.old → HasImported F query.now steps text worker.new)) }
        ensures vars { OnOk result (vars_in worker.new ≡ vars_in worker.old) }
    {
        if !is_clause_number(offer.number) {
            return Ok(false);
        }
        let log = self.number_of(worker, offer.peer)?;
        if !is_clause_number(log) {
            return Ok(false);
        }
        let literals = self.inbox.literals_of(offer);
        if !worker.lend(log, offer.number, literals, offer.time)? {
            return Ok(false);
        }
        Ok(closes(query, literals))
    }

    /// Whether an offer is worth to be taken over. One that could close a leaf is, if it closes one that is not known to be closed; of the
    /// others, as long as they have at most `left` literals together.
    fn is_wanted(&mut self, offer: Offered, left: &mut usize) -> bool {
        if offer.may_close {
            return self.leaves.note_all(self.inbox.literals_of(offer));
        }
        if offer.len > *left {
            *left = 0; // those after it are no shorter
            return false;
        }
        *left -= offer.len;
        true
    }

    /// Takes over the offers that close leaves, and then the shortest others, as long as these have at most `MOST_LITERALS` literals
    /// together. Answers whether one of them closes the query.
    pub(crate) fn take_over<P: Propagator>(
        &mut self,
        worker: &mut CellWorker<'_, P>,
        query: &[Lit],
    ) -> Result<bool, AllocError>
        requires { IsWorkerReady P.is_ready P.attached worker.old }
        ensures ready { OnOk result (IsWorkerReady P.is_ready P.attached worker.new) }
        ensures stands { OnOk result (GoesOn worker.old worker.new) }
        ensures closed { IfOk result (λ closed. OnTrue closed ((F : Cnf) (steps : List SharedStep) (text : List ℕ) → IsWritingSteps F steps text worker.old → HasImported F query.now steps text worker.new)) }
        ensures vars { OnOk result (vars_in worker.new ≡ vars_in worker.old) }
    {
        if !worker.advance(self.inbox.latest)? {
            return Ok(false); // the clock has come to its end: nothing is taken over any more
        }
        self.inbox.pass();
        let mut left = MOST_LITERALS;
        for place in self.next..self.inbox.len() {
            self.next = place + 1;
            let Some(offer) = self.inbox.get(place) else {
                return Ok(false);
            };
            if self.is_wanted(offer, &mut left) && self.take(worker, query, offer)? {
                return Ok(true);
            }
        }
        Ok(false)
    }
}
