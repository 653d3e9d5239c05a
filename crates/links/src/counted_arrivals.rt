//! Arrivals over any event carrier, with the counts of calls, events, links and refusals.

ghost use Rattle.std.specs.Prelude.{◌≡◌, ◌≢◌, ◌≤◌, ◌<◌, ◌+◌, ◌^◌, ℕ, false, length, replicate, slice_index, if◌then◌else◌};
ghost use Rattle.links.specs.Counts.{one_more, one_more_if_err};
ghost use Rattle.links.specs.Arrivals.{IsWithin, arrived, begun_at, is_over};
ghost use Rattle.links.specs.CountedArrivals.{event_carrier_of, arrivals_of, is_at_end, arrival_calls_of, links_at, refusals_at};

use crate::arrivals::{Arrival, Arrivals, Event};
use crate::counted::count;
use crate::event_carrier::EventCarrier;
use crate::link::LinkFault;
use crate::progress::Progress;

/// The number of places.
const PLACES: usize = 256;

/// Links that come and go over an event carrier, with the counts, which the carrier does not keep.
#[derive(Drop)]
pub struct CountedArrivals<S> {
    carrier: S,
    /// The number of receives and sends.
    calls: u64,
    /// The number of events, except `Over`.
    arrivals: u64,
    /// By place, the number of links that began there.
    links: [u64; PLACES],
    /// By place, the number of sends that were refused there.
    refusals: [u64; PLACES],
    /// Whether the last event was `Over`: nothing will come any more.
    is_over: bool,
}

/// Counts a refused send at its place, if the answer is an error; the counter stays at 2^64 - 1.
/// Returns the answer.
fn note(counts: &mut [u64], place: u8, answer: Result<(), LinkFault>) -> Result<(), LinkFault>
    requires { 256 ≤ length counts.old }
    ensures answer { result ≡ answer }
    ensures here { slice_index counts.new place ≡ one_more_if_err answer (slice_index counts.old place) }
    ensures elsewhere { (p : ℕ) → p ≢ place → slice_index counts.new p ≡ slice_index counts.old p }
{
    if answer.is_err() {
        count(&mut counts[place as usize]);
    }
    answer
}

/// Whether an event is `Over`: nothing comes after it.
fn is_over(event: Event) -> bool
    ensures { result ≡ is_over event }
{
    match event {
        Event::Linked { .. } | Event::Bytes { .. } | Event::Quiet => false,
        Event::Over => true,
    }
}

/// Counts a link that begins at a place. Returns false, and counts nothing, if the counter is at 2^64 - 1.
fn count_link(counts: &mut [u64], place: u8) -> bool
    requires { 256 ≤ length counts.old }
    ensures { (p : ℕ) → slice_index counts.new p ≡ slice_index counts.old p + (if result then begun_at (Event.Linked place) p else 0) }
{
    let place = place as usize;
    if counts[place] == u64::MAX {
        return false;
    }
    counts[place] += 1;
    true
}

impl<S> CountedArrivals<S> {
    /// Links over this carrier, with all counts 0.
    pub fn new(carrier: S) -> CountedArrivals<S>
        ensures carrier { event_carrier_of result ≡ carrier }
        ensures calls { arrival_calls_of result ≡ 0 }
        ensures arrivals { arrivals_of result ≡ 0 }
        ensures links { (p : ℕ) → links_at result p ≡ 0 }
        ensures refusals { (p : ℕ) → refusals_at result p ≡ 0 }
        ensures ended { is_at_end result ≡ false }
    {
        CountedArrivals {
            carrier,
            calls: 0,
            arrivals: 0,
            links: [0; PLACES],
            refusals: [0; PLACES],
            is_over: false,
        }
    }

    /// The carrier of the links.
    pub fn carrier(&self) -> &S
        ensures { result.now ≡ event_carrier_of self.now }
    {
        &self.carrier
    }
}

impl<S: EventCarrier> CountedArrivals<S> {
    /// Counts an event, and returns it. It returns `Over` if the count of events is full. If the count of the place's links is full, it
    /// drops the new link and returns `Quiet`.
    fn note_event(&mut self, event: Event) -> Event
        ensures within { (room : ℕ) → IsWithin event room → IsWithin result room }
        ensures calls { arrival_calls_of self.new ≡ arrival_calls_of self.old }
        ensures arrivals { arrivals_of self.new ≡ arrivals_of self.old + arrived result }
        ensures links { (p : ℕ) → links_at self.new p ≡ links_at self.old p + begun_at result p }
        ensures refusals { (p : ℕ) → refusals_at self.new p ≡ refusals_at self.old p }
    {
        if event == Event::Over || self.arrivals == u64::MAX {
            return Event::Over;
        }
        self.arrivals += 1;
        if let Event::Linked { place } = event {
            if !count_link(&mut self.links, place) {
                self.carrier.drop_at(place);
                return Event::Quiet;
            }
        }
        event
    }
}

impl<S: EventCarrier> Arrivals for CountedArrivals<S> {
    ghost call_count = { arrival_calls_of };

    ghost arrival_count = { arrivals_of };

    ghost link_count = { links_at };

    ghost refusal_count = { refusals_at };

    ghost has_ended = { is_at_end };

    /// Has the carrier wait for the next event, and counts the call and the event.
    fn receive_any(&mut self, room: &mut [u8]) -> Arrival {
        count(&mut self.calls);
        let arrival = self.carrier.await_any(room);
        let event = self.note_event(arrival.event);
        self.is_over = is_over(event);
        Arrival {
            tick: arrival.tick,
            event,
        }
    }

    /// Has the carrier carry the bytes, and counts the call and its refusal.
    fn send_to(&mut self, place: u8, bytes: &[u8]) -> Result<(), LinkFault> {
        count(&mut self.calls);
        let answer = self.carrier.carry_to(place, bytes);
        note(&mut self.refusals, place, answer)
    }

    /// Has the carrier drop the link; this is not counted.
    fn hang_up(&mut self, place: u8) {
        self.carrier.drop_at(place);
    }

    /// Has the carrier show the progress.
    fn show(&mut self, progress: &Progress) {
        self.carrier.show(progress);
    }
}
