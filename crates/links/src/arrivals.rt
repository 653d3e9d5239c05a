//! Links that come and go, and the events that a coordinator receives from them.

ghost use Rattle.std.specs.Prelude.{◌≡◌, ◌≢◌, ◌≤◌, ◌+◌, ℕ, Bool, List, length};
ghost use Rattle.links.specs.Counts.{one_more, one_more_if_err};
ghost use Rattle.links.specs.Arrivals.{IsWithin, arrived, begun_at, is_over};
ghost use Rattle.links.specs.declared.arrivals.Event.{Event};

use crate::link::LinkFault;
use crate::progress::Progress;

/// An event at the coordinator's ends.
#[derive(Clone, Copy, Debug, PartialEq, Eq)]
pub enum Event {
    /// A link began at this place. A link that was there before has ended.
    Linked { place: u8 },
    /// `count` bytes came over the link at this place, and are at the front of the room; 0 bytes mean that the link has ended.
    Bytes { place: u8, count: usize },
    /// Nothing came in this time.
    Quiet,
    /// Nothing will come any more.
    Over,
}

/// An event, with the time when it came.
#[derive(Clone, Copy, Debug, PartialEq, Eq)]
pub struct Arrival {
    /// The time, in seconds since any moment.
    pub tick: u64,
    /// The event.
    pub event: Event,
}

/// The coordinator's ends of links that come and go. Each has a place, 0 to 255; a place may have one link after another. A call is a
/// receive or a send; calls and refusals are counted up to 2^64 - 1.
pub trait Arrivals {
    /// The number of receives and sends.
    ghost call_count: { Self → ℕ };

    /// The number of events, except `Over`.
    ghost arrival_count: { Self → ℕ };

    /// For each place, the number of links that began there.
    ghost link_count: { Self → ℕ → ℕ };

    /// For each place, the number of sends that were refused there.
    ghost refusal_count: { Self → ℕ → ℕ };

    /// Whether the last event was `Over`.
    ghost has_ended: { Self → Bool };

    /// What a receive brings, if an implementation says it: it relates the state before, the event, the room with the bytes at its front,
    /// and the state after.
    ghost came: { Self → Event → List ℕ → Self → Type 0 } = { λ _ _ _ _. Unit {0} };

    /// Waits for the next event of any link, and puts its bytes at the front of the room. It does not wait for one link alone.
    fn receive_any(&mut self, room: &mut [u8]) -> Arrival
        ensures within { IsWithin result.event (length room.new) }
        ensures calls { call_count self.new ≡ one_more (call_count self.old) }
        ensures arrivals { arrival_count self.new ≡ arrival_count self.old + arrived result.event }
        ensures ended { has_ended self.new ≡ is_over result.event }
        ensures came { came self.old result.event room.new self.new }
        ensures links { (p : ℕ) → link_count self.new p ≡ link_count self.old p + begun_at result.event p }
        ensures refusals { (p : ℕ) → refusal_count self.new p ≡ refusal_count self.old p };

    /// Sends bytes over the link at a place, without waiting. It is an error if the link refuses them or there is none.
    fn send_to(&mut self, place: u8, bytes: &[u8]) -> Result<(), LinkFault>
        ensures calls { call_count self.new ≡ one_more (call_count self.old) }
        ensures arrivals { arrival_count self.new ≡ arrival_count self.old }
        ensures ended { has_ended self.new ≡ has_ended self.old }
        ensures links { (p : ℕ) → link_count self.new p ≡ link_count self.old p }
        ensures refusal { refusal_count self.new place ≡ one_more_if_err result (refusal_count self.old place) }
        ensures elsewhere { (p : ℕ) → p ≢ place → refusal_count self.new p ≡ refusal_count self.old p };

    /// Ends the link at a place, if there is one.
    fn hang_up(&mut self, place: u8)
        ensures calls { call_count self.new ≡ call_count self.old }
        ensures arrivals { arrival_count self.new ≡ arrival_count self.old }
        ensures ended { has_ended self.new ≡ has_ended self.old }
        ensures links { (p : ℕ) → link_count self.new p ≡ link_count self.old p }
        ensures refusals { (p : ℕ) → refusal_count self.new p ≡ refusal_count self.old p };

    /// Shows the progress of a run; it is called once a tick.
    fn show(&mut self, progress: &Progress)
        ensures calls { call_count self.new ≡ call_count self.old }
        ensures arrivals { arrival_count self.new ≡ arrival_count self.old }
        ensures ended { has_ended self.new ≡ has_ended self.old }
        ensures links { (p : ℕ) → link_count self.new p ≡ link_count self.old p }
        ensures refusals { (p : ℕ) → refusal_count self.new p ≡ refusal_count self.old p };
}
