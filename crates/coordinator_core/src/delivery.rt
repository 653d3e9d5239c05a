//! The delivery of a frame to a coordinator.

ghost use Rattle.evidence.specs.Events.{Delivered, Reacted};
ghost use Rattle.coordinator_core.specs.Coordinator.{CoordinatorStep};

use crate::coordinator::Coordinator;
use frames::Frame;
use lrat_check::Reaction;

impl Coordinator {
    /// Delivers a frame: Done, Piece, Idle or Want. Kinds that are sent to a worker are ignored. After `NoMemory` the coordinator is
    /// unchanged.
    pub fn deliver(&mut self, frame: &Frame) -> Reaction
        ensures step { CoordinatorStep self.old (Delivered frame.now) (Reacted result) self.new }
    {
        match frame {
            Frame::Done { attempt, ending } => self.deliver_done(attempt, ending),
            Frame::Piece {
                attempt,
                offset,
                bytes,
            } => self.deliver_piece(attempt, *offset, bytes),
            Frame::Idle {
                worker,
                incarnation,
            } => self.deliver_idle(*worker, *incarnation),
            Frame::Want {
                session,
                worker,
                offset,
            } => self.deliver_want(*session, *worker, *offset),
            _ => Reaction::Ignored,
        }
    }
}
