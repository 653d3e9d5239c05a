//! Carriers: links that count nothing.

ghost use Rattle.std.specs.Prelude.{◌≤◌, length, IfOk};

use crate::link::{End, LinkFault};
use crate::progress::Progress;

/// Carries bytes over links that are there from the beginning, one a worker, and counts nothing.
pub trait Carrier {
    /// Carries bytes from this end to the other end of its link.
    fn carry(&mut self, from: End, bytes: &[u8]) -> Result<(), LinkFault>;

    /// Puts bytes that came to an end at the front of the room. Returns how many; 0 means that the link has ended.
    fn fetch(&mut self, at: End, room: &mut [u8]) -> Result<usize, LinkFault>
        ensures { IfOk result (λ n. n ≤ length room.new) };

    /// Shows the progress of a run. Most carriers show it to nobody.
    fn show(&mut self, _progress: &Progress) {}
}
