//! The logs that have lines left, by their clocks.

use std::alloc::{AllocError, Global};
use std::collections::BinaryHeap;

/// The logs that have lines left. The heap has its greatest item first, so a clock stands in it as what is left up to the last time.
pub(crate) struct ClockHeap {
    logs: BinaryHeap<(u64, usize)>,
}

impl Drop for ClockHeap {
    fn drop(self) {
        let ClockHeap { logs: _ } = self;
    }
}

impl ClockHeap {
    /// No logs.
    pub(crate) fn new(alloc: Global) -> ClockHeap {
        ClockHeap {
            logs: BinaryHeap::new(alloc),
        }
    }

    /// Adds a log whose clock is at this time.
    pub(crate) fn push(&mut self, clock: u64, log: usize) -> Result<(), AllocError> {
        self.logs.push((u64::MAX - clock, log))?;
        Ok(())
    }

    /// Takes out a log whose clock is lowest; `None` if no log has lines left.
    pub(crate) fn pop(&mut self) -> Option<usize> {
        match self.logs.pop() {
            Some((_, log)) => Some(log),
            None => None,
        }
    }
}
