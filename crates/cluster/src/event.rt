//! The events of an open schedule.

ghost use Rattle.std.specs.Prelude.{◌≡◌};
ghost use Rattle.cluster.specs.OpenSchedule.{node_of};

use crate::bytes::Bytes;
use dimacs::Extension;

/// An event of an open schedule. Nodes are numbered from 0.
#[derive(Drop)]
pub enum OpenEvent {
    /// Deliver any bytes to a node.
    Deliver {
        node: usize,
        bytes: Bytes,
    },
    /// Let a node search.
    Work {
        node: usize,
    },
    /// Poll a node for its next frame, a coordinator for the frame to `worker`. The frame is dropped.
    Poll {
        node: usize,
        worker: u32,
    },
    /// Restart a node under a number: a worker's incarnation, or a coordinator's session.
    Restart {
        node: usize,
        number: u64,
    },
    /// Add clauses to a node's formula, and restart the node under a number. It holds the assignment or proof that it held before if that
    /// is right for the longer formula, else no verdict.
    Extend {
        node: usize,
        extension: Extension,
        number: u64,
    },
}

impl OpenEvent {
    /// The number of the node at which the event happens, counted from 0.
    pub fn node(&self) -> usize
        ensures { result ≡ node_of self.now }
    {
        match self {
            OpenEvent::Deliver { node, .. } => *node,
            OpenEvent::Work { node } => *node,
            OpenEvent::Poll { node, .. } => *node,
            OpenEvent::Restart { node, .. } => *node,
            OpenEvent::Extend { node, .. } => *node,
        }
    }
}
