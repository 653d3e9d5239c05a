//! The offers of other workers that were read and not taken over yet.
//!
//! Nothing is promised of them: they are what others' bytes say.

ghost use Rattle.std.specs.Prelude.{◌≤◌};

use crate::known_leaves::KnownLeaves;
use dimacs::Lit;
use lrat_text::TextFault;
use shared_lines::OfferBuffer;
use std::alloc::{AllocError, Global};

/// The time of an offer that is taken over is below this one, so that this worker's clock can pass it.
const LATE: u64 = (1 << 40) - 1;

/// How far the time of an offer may be above the worker's clock: workers of one cell are never so far apart.
const AHEAD: u64 = 1 << 32;

/// The bits of a row's index in a sort key.
const INDEX_BITS: u32 = 32;

/// The greatest number of literals in a sort key.
const MOST_IN_KEY: u64 = (1 << 31) - 1;

/// An offer: who made it, the lemma's number there, the time, and where its literals stand.
#[derive(Clone, Copy)]
pub(crate) struct Offered {
    pub(crate) peer: usize,
    pub(crate) number: u64,
    pub(crate) time: u64,
    start: usize,
    pub(crate) len: usize,
    /// Whether it could close a leaf.
    pub(crate) may_close: bool,
}

/// Offers, with their literals one after the other.
pub(crate) struct Inbox {
    /// The greatest variable that an offer may have.
    most: u32,
    line: OfferBuffer,
    literals: Vec<Lit>,
    offers: Vec<Offered>,
    /// The sort key of each offer.
    keys: Vec<u64>,
    /// The greatest time of an offer.
    pub(crate) latest: u64,
    /// The time by the worker's clock, as far as it was told.
    clock: u64,
    ghost few: { most ≤ 199999999 },
}

impl Drop for Inbox {
    fn drop(self) {
        let Inbox {
            most: _,
            line: _,
            literals: _,
            offers: _,
            keys: _,
            latest: _,
            clock: _,
        } = self;
    }
}

/// Whether the time of an offer is none that a worker of this cell can have come to, by the worker's own clock.
fn is_late(clock: u64, time: u64) -> bool {
    time >= LATE || time > clock.saturating_add(AHEAD)
}

impl Inbox {
    /// An empty inbox for offers with variables up to `most`.
    pub(crate) fn new(alloc: Global, most: u32) -> Inbox
        requires { most ≤ 199999999 }
    {
        Inbox {
            most,
            line: OfferBuffer::new(alloc),
            literals: Vec::new(alloc),
            offers: Vec::new(alloc),
            keys: Vec::new(alloc),
            latest: 0,
            clock: 0,
        }
    }

    /// Tells that the worker's clock has passed the greatest time of an offer.
    pub(crate) fn pass(&mut self) {
        self.clock = self.clock.max(self.latest).saturating_add(1);
    }

    /// Reads a line of the offers of worker number `peer`. A line that spells no offer, or one whose time is too late, is passed over.
    pub(crate) fn read(
        &mut self,
        leaves: &KnownLeaves<'_>,
        peer: usize,
        line: &[u8],
    ) -> Result<(), AllocError> {
        match self.line.read(self.most, line) {
            Ok(()) => {}
            Err(TextFault::NoMemory) => return Err(AllocError),
            Err(_) => return Ok(()),
        }
        let offer = self.line.as_ref();
        if is_late(self.clock, offer.time) {
            return Ok(());
        }
        let start = self.literals.len();
        self.literals.extend_from_slice(offer.literals)?;
        self.offers.push(Offered {
            peer,
            number: offer.number,
            time: offer.time,
            start,
            len: offer.literals.len(),
            may_close: leaves.may_close(offer.literals),
        })?;
        self.latest = self.latest.max(offer.time);
        Ok(())
    }

    /// Puts the offers in an order: those that could close a leaf first, the shortest of these first, and of as many literals the one that
    /// was read first; then the others, in the same order.
    pub(crate) fn sort(&mut self) -> Result<(), AllocError> {
        self.keys.clear();
        for offer in &self.offers {
            let index = self.keys.len() as u64;
            let len = (offer.len as u64).min(MOST_IN_KEY);
            let class = if offer.may_close { 0 } else { 1 << 63 };
            self.keys
                .push(class | len << INDEX_BITS | index % (1 << INDEX_BITS))?;
        }
        self.keys.sort_unstable();
        Ok(())
    }

    /// The offer at this place of the order; `None` if there are not so many.
    pub(crate) fn get(&self, place: usize) -> Option<Offered> {
        let key = self.keys.get(place)?;
        let offer = self.offers.get((key % (1 << INDEX_BITS)) as usize)?;
        Some(*offer)
    }

    /// The number of offers.
    pub(crate) fn len(&self) -> usize {
        self.offers.len()
    }

    /// The literals of an offer.
    pub(crate) fn literals_of(&self, offer: Offered) -> &[Lit] {
        let end = offer.start.saturating_add(offer.len);
        if offer.start <= end && end <= self.literals.len() {
            &self.literals[offer.start..end]
        } else {
            &[]
        }
    }

    /// Drops all offers.
    pub(crate) fn clear(&mut self) {
        self.literals.clear();
        self.offers.clear();
        self.keys.clear();
        self.latest = 0;
    }
}
