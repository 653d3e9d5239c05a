//! Links that are there from the beginning, one for each worker.

ghost use Rattle.std.specs.Prelude.{◌≡◌, ◌≢◌, ◌≤◌, ℕ, length, IfOk};
ghost use Rattle.links.specs.Counts.{one_more, one_more_if_err};
ghost use Rattle.links.specs.Ends.{link_of};

use crate::progress::Progress;
use thiserror::Error;

/// One of the two ends of a worker's link, by the worker's number, from 1.
#[derive(Clone, Copy, Debug, PartialEq, Eq)]
pub enum End {
    /// The end of the coordinator.
    Coordinator(u32),
    /// The end of the worker.
    Worker(u32),
}

/// The fault of a send or a receive that was refused.
#[derive(Clone, Copy, Debug, PartialEq, Eq, Error)]
#[error("the link refused")]
pub struct LinkFault;

/// Links that carry bytes between a coordinator and its workers. Calls (sends and receives) and refused calls are counted, up to 2^64 - 1;
/// refused calls also by worker, from number 0 to 64.
pub trait Links {
    /// The number of sends and receives.
    ghost call_count: { Self → ℕ };

    /// The number of them that were refused.
    ghost refusal_count: { Self → ℕ };

    /// For each worker up to number 64, the number that were refused at its link.
    ghost refused_at: { Self → ℕ → ℕ };

    /// Sends bytes from this end to the other end of its link. It is an error if the link refuses them.
    fn send(&mut self, from: End, bytes: &[u8]) -> Result<(), LinkFault>
        ensures calls { call_count self.new ≡ one_more (call_count self.old) }
        ensures refusals { refusal_count self.new ≡ one_more_if_err result (refusal_count self.old) }
        ensures here { link_of from ≤ 64 → refused_at self.new (link_of from) ≡ one_more_if_err result (refused_at self.old (link_of from)) }
        ensures elsewhere { (worker : ℕ) → worker ≢ link_of from → refused_at self.new worker ≡ refused_at self.old worker };

    /// Puts bytes that came to an end at the front of the room. Returns how many; 0 means that the link has ended.
    fn receive(&mut self, at: End, room: &mut [u8]) -> Result<usize, LinkFault>
        ensures bound { IfOk result (λ n. n ≤ length room.new) }
        ensures calls { call_count self.new ≡ one_more (call_count self.old) }
        ensures refusals { refusal_count self.new ≡ one_more_if_err result (refusal_count self.old) }
        ensures here { link_of at ≤ 64 → refused_at self.new (link_of at) ≡ one_more_if_err result (refused_at self.old (link_of at)) }
        ensures elsewhere { (worker : ℕ) → worker ≢ link_of at → refused_at self.new worker ≡ refused_at self.old worker };

    /// Shows the progress of a run; it is called after each turn of a link.
    fn show(&mut self, progress: &Progress)
        ensures calls { call_count self.new ≡ call_count self.old }
        ensures refusals { refusal_count self.new ≡ refusal_count self.old }
        ensures refused { refused_at self.new ≡ refused_at self.old };

    /// The number of sends and receives.
    fn calls(&self) -> u64
        ensures { result ≡ call_count self.now };

    /// The number of sends and receives that were refused.
    fn refusals(&self) -> u64
        ensures { result ≡ refusal_count self.now };
}
