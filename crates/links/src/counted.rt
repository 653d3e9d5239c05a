//! Links over any carrier, with the counts of calls and refusals.

ghost use Rattle.std.specs.Prelude.{◌≡◌, ◌≢◌, ◌≤◌, ◌<◌, ℕ, length, slice_index};
ghost use Rattle.links.specs.Counts.{one_more, one_more_if_err};
ghost use Rattle.links.specs.Counted.{carrier_of, calls_of, refusals_of, refused_of};
ghost use Rattle.links.specs.Ends.{link_of};

use crate::carrier::Carrier;
use crate::link::{End, LinkFault, Links};
use crate::progress::Progress;

/// The number of links that have a count of their own: those of workers 0 to 64.
const LINKS: usize = 65;

/// The counts of a carrier: calls, refused calls, and refused calls by link.
#[derive(Drop)]
struct Tally {
    /// The number of sends and receives.
    calls: u64,
    /// The number of them that were refused.
    refusals: u64,
    /// By worker, the number that were refused at its link.
    refused: [u64; LINKS],
}

/// Links over a carrier, with the counts, which the carrier does not keep.
#[derive(Drop)]
pub struct Counted<C> {
    carrier: C,
    tally: Tally,
}

/// Adds 1 to a counter; it stays at 2^64 - 1.
pub(crate) fn count(n: &mut u64)
    ensures { n.new ≡ one_more n.old }
{
    if *n < u64::MAX {
        *n += 1;
    }
}

/// The number of the worker whose link has this end.
fn worker_of(end: End) -> u32
    ensures { result ≡ link_of end }
{
    match end {
        End::Coordinator(worker) | End::Worker(worker) => worker,
    }
}

/// Adds 1 to the counter at an index; nothing changes if there is none.
fn count_at(counts: &mut [u64], place: usize)
    ensures here { place < length counts.old → slice_index counts.new place ≡ one_more (slice_index counts.old place) }
    ensures elsewhere { (p : ℕ) → p ≢ place → slice_index counts.new p ≡ slice_index counts.old p }
{
    if place < counts.len() {
        count(&mut counts[place]);
    }
}

impl Tally {
    /// Counts a call at an end, and a refusal if its answer is an error. Returns the answer.
    fn note<T>(&mut self, end: End, answer: Result<T, LinkFault>) -> Result<T, LinkFault>
        ensures answer { result ≡ answer }
        ensures calls { self.new.calls ≡ one_more self.old.calls }
        ensures refusals { self.new.refusals ≡ one_more_if_err result self.old.refusals }
        ensures here { link_of end ≤ 64 → slice_index self.new.refused (link_of end) ≡ one_more_if_err result (slice_index self.old.refused (link_of end)) }
        ensures elsewhere { (worker : ℕ) → worker ≢ link_of end → slice_index self.new.refused worker ≡ slice_index self.old.refused worker }
    {
        count(&mut self.calls);
        if answer.is_err() {
            count(&mut self.refusals);
            count_at(&mut self.refused, worker_of(end) as usize);
        }
        answer
    }
}

impl<C> Counted<C> {
    /// Links over this carrier, with all counts 0.
    pub fn new(carrier: C) -> Counted<C>
        ensures carrier { carrier_of result ≡ carrier }
        ensures calls { calls_of result ≡ 0 }
        ensures refusals { refusals_of result ≡ 0 }
        ensures refused { (worker : ℕ) → refused_of result worker ≡ 0 }
    {
        Counted {
            carrier,
            tally: Tally {
                calls: 0,
                refusals: 0,
                refused: [0; LINKS],
            },
        }
    }

    /// The carrier of the links.
    pub fn carrier(&self) -> &C
        ensures { result.now ≡ carrier_of self.now }
    {
        &self.carrier
    }
}

impl<C: Carrier> Links for Counted<C> {
    ghost call_count = { calls_of };

    ghost refusal_count = { refusals_of };

    ghost refused_at = { refused_of };

    /// Has the carrier carry the bytes, and counts the call.
    fn send(&mut self, from: End, bytes: &[u8]) -> Result<(), LinkFault> {
        let answer = self.carrier.carry(from, bytes);
        self.tally.note(from, answer)
    }

    /// Has the carrier fetch bytes, and counts the call.
    fn receive(&mut self, at: End, room: &mut [u8]) -> Result<usize, LinkFault> {
        let answer = self.carrier.fetch(at, room);
        self.tally.note(at, answer)
    }

    /// Has the carrier show the progress.
    fn show(&mut self, progress: &Progress) {
        self.carrier.show(progress);
    }

    /// The number of sends and receives so far.
    fn calls(&self) -> u64 {
        self.tally.calls
    }

    /// The number of refused sends and receives so far.
    fn refusals(&self) -> u64 {
        self.tally.refusals
    }
}
