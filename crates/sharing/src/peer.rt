//! Another worker of the cell, and what was read of its offers.

use crate::inbox::Inbox;
use crate::known_leaves::KnownLeaves;
use memchr::memchr;
use std::alloc::{AllocError, Global};

/// The longest line that is kept until its end is read. A longer one is passed over.
const LONGEST_LINE: usize = 1 << 16;

/// Another worker.
pub(crate) struct Peer {
    /// The name of its log.
    pub(crate) name: Vec<u8>,
    /// The number that stands for the name in this worker's log; 0 if no lemma was taken over from it yet.
    pub(crate) number: u64,
    /// How many bytes of its offers were read.
    pub(crate) read: u64,
    /// The beginning of a line whose end was not read yet.
    line: Vec<u8>,
    /// Whether that line is passed over, since it is too long.
    is_long: bool,
}

impl Drop for Peer {
    fn drop(self) {
        let Peer {
            name: _,
            number: _,
            read: _,
            line: _,
            is_long: _,
        } = self;
    }
}

impl Peer {
    /// A worker of this name, of which nothing was read.
    pub(crate) fn new(alloc: Global, name: Vec<u8>) -> Peer {
        Peer {
            name,
            number: 0,
            read: 0,
            line: Vec::new(alloc),
            is_long: false,
        }
    }

    /// Keeps bytes of a line whose end was not read yet.
    fn keep(&mut self, bytes: &[u8]) -> Result<(), AllocError> {
        if self.is_long
            || bytes.len() > LONGEST_LINE
            || self.line.len() > LONGEST_LINE - bytes.len()
        {
            self.is_long = true;
            return Ok(());
        }
        self.line.extend_from_slice(bytes)
    }

    /// Hands the line that has ended to the inbox; `row` is this worker's number.
    fn end_line(
        &mut self,
        leaves: &KnownLeaves<'_>,
        row: usize,
        inbox: &mut Inbox,
    ) -> Result<(), AllocError> {
        if !self.is_long {
            inbox.read(leaves, row, &self.line)?;
        }
        self.line.clear();
        self.is_long = false;
        Ok(())
    }

    /// Takes the next bytes of the offers: hands each line that ends in them to the inbox.
    pub(crate) fn take(
        &mut self,
        bytes: &[u8],
        leaves: &KnownLeaves<'_>,
        row: usize,
        inbox: &mut Inbox,
    ) -> Result<(), AllocError> {
        self.read = self.read.saturating_add(bytes.len() as u64);
        let mut from = 0;
        'lines: while from < bytes.len() {
            match memchr(b'\n', &bytes[from..]) {
                Some(len) => {
                    self.keep(&bytes[from..from + len])?;
                    self.end_line(leaves, row, inbox)?;
                    from += len + 1;
                }
                None => {
                    self.keep(&bytes[from..])?;
                    return Ok(());
                }
            }
        }
        Ok(())
    }
}
