//! Links in memory: queues of bytes.

ghost use Rattle.std.specs.Prelude.{◌≡◌, ◌≤◌, [], length, replicate, IfOk};
ghost use Rattle.links.specs.Linked.{under_way};

use crate::carrier::Carrier;
use crate::link::{End, LinkFault};
use std::alloc::{AllocError, Global};
use std::collections::VecDeque;

/// The length of the longest frame in bytes.
const LONGEST: usize = 4037;

/// The bytes that are under way over one worker's link, as two queues.
#[derive(Drop)]
struct Wire {
    /// To the worker.
    down: VecDeque<u8>,
    /// To the coordinator.
    up: VecDeque<u8>,
}

/// The links of workers 1 to n, as queues in memory. A call at the link of another worker is refused. A receive from an empty queue returns
/// 0 bytes: such a link has ended.
///
/// Room for one frame each way is taken when the links are made. A run has at most one frame under way, so no send of a
/// run is refused because memory is.
#[derive(Drop)]
pub struct Memory {
    /// By worker, from number 1 on.
    wires: Vec<Wire>,
}

impl Memory {
    /// The links of workers 1 to `workers`, with empty queues. It is an error if memory is refused.
    pub fn new(alloc: Global, workers: u32) -> Result<Memory, AllocError>
        ensures { IfOk result (λ m. under_way m ≡ replicate workers ([], [])) }
    {
        let mut wires = Vec::new(alloc);
        for _ in 0..workers {
            wires.push(Wire {
                down: VecDeque::with_capacity(alloc, LONGEST)?,
                up: VecDeque::with_capacity(alloc, LONGEST)?,
            })?;
        }
        Ok(Memory { wires })
    }

    /// The queues of a worker's link; None if there is no worker of this number.
    fn wire(&mut self, worker: u32) -> Option<&mut Wire> {
        let place = worker.checked_sub(1)?;
        self.wires.get_mut(place as usize)
    }
}

/// Moves bytes from the front of a queue to the front of the room of a receive, as many as fit.
/// Returns how many.
fn drain(queue: &mut VecDeque<u8>, room: &mut [u8]) -> usize
    ensures { result ≤ length room.new }
{
    let mut taken = 0;
    for cell in room.iter_mut() {
        match queue.pop_front() {
            Some(byte) => {
                *cell = byte;
                taken += 1;
            }
            None => break,
        }
    }
    taken
}

impl Carrier for Memory {
    /// Appends the bytes to the queue that leads away from this end: down to the worker, or up to
    /// the coordinator.
    fn carry(&mut self, from: End, bytes: &[u8]) -> Result<(), LinkFault> {
        let queue = match from {
            End::Coordinator(w) => &mut self.wire(w).ok_or(LinkFault)?.down,
            End::Worker(w) => &mut self.wire(w).ok_or(LinkFault)?.up,
        };
        queue.reserve(bytes.len()).map_err(|_| LinkFault)?;
        for byte in bytes {
            queue.push_back(*byte).map_err(|_| LinkFault)?;
        }
        Ok(())
    }

    /// Takes bytes from the queue that leads to this end. It does not wait: an empty queue answers
    /// 0 bytes.
    fn fetch(&mut self, at: End, room: &mut [u8]) -> Result<usize, LinkFault> {
        let queue = match at {
            End::Coordinator(w) => &mut self.wire(w).ok_or(LinkFault)?.up,
            End::Worker(w) => &mut self.wire(w).ok_or(LinkFault)?.down,
        };
        Ok(drain(queue, room))
    }
}
