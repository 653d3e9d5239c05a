//! Event carriers: links that come and go, and count nothing.

ghost use Rattle.std.specs.Prelude.{◌≤◌, length};
ghost use Rattle.links.specs.Arrivals.{IsWithin};

use crate::arrivals::Arrival;
use crate::link::LinkFault;
use crate::progress::Progress;

/// The coordinator's ends of links that come and go, without counts. Each has a place, 0 to 255.
pub trait EventCarrier {
    /// Waits for the next event of any link, and puts its bytes at the front of the room.
    fn await_any(&mut self, room: &mut [u8]) -> Arrival
        ensures { IsWithin result.event (length room.new) };

    /// Sends bytes over the link at a place, without waiting. It is an error if the link refuses them or there is none.
    fn carry_to(&mut self, place: u8, bytes: &[u8]) -> Result<(), LinkFault>;

    /// Ends the link at a place, if there is one, by dropping its connection.
    fn drop_at(&mut self, place: u8);

    /// Shows the progress of a run. Most carriers show it to nobody.
    fn show(&mut self, _progress: &Progress) {}
}
