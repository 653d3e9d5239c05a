//! The cubes that are to be closed, and the lemmas that close them.

use dimacs::Lit;
use std::alloc::{AllocError, Global};

/// The mark of a cube that is open.
const OPEN: u32 = u32::MAX;

/// The greatest number of cubes.
const MOST: usize = 0xFFFF_FFFF;

/// The cubes, by their places. A lemma closes a cube if the cube has the negation of each of its literals.
pub(crate) struct OpenCubes {
    /// A word for each literal of each cube, in rising order: the literal's index, and in the lower half the cube's place.
    places: Vec<u64>,
    /// By cube, the lemma that closes it, or `OPEN`.
    closings: Vec<u32>,
    /// How many cubes are open.
    open: usize,
}

impl Drop for OpenCubes {
    fn drop(self) {
        let OpenCubes {
            places: _,
            closings: _,
            open: _,
        } = self;
    }
}

/// The word for a literal of a cube.
fn place_of(l: Lit, cube: u32) -> u64 {
    ((l.index() as u64) << 32) | u64::from(cube)
}

impl OpenCubes {
    /// The cubes, each of which is open.
    pub(crate) fn of(alloc: Global, cubes: &[&[Lit]]) -> Result<OpenCubes, AllocError> {
        let mut places = Vec::new(alloc);
        let mut closings = Vec::new(alloc);
        for (i, cube) in cubes.iter().enumerate() {
            if i >= MOST {
                break;
            }
            for &l in *cube {
                places.push(place_of(l, i as u32))?;
            }
            closings.push(OPEN)?;
        }
        places.sort()?;
        let open = closings.len();
        Ok(OpenCubes {
            places,
            closings,
            open,
        })
    }

    /// Tells whether a cube is open.
    pub(crate) fn any_open(&self) -> bool {
        self.open > 0
    }

    /// Answers where the word stands in `places`, or would stand.
    fn find(&self, word: u64) -> usize {
        match self.places.binary_search(&word) {
            Ok(at) => at,
            Err(at) => at,
        }
    }

    /// Tells whether a cube has the negation of each literal of a clause.
    fn has_all(&self, cube: u32, clause: &[Lit]) -> bool {
        for l in clause {
            if self
                .places
                .binary_search(&place_of(l.negate(), cube))
                .is_err()
            {
                return false;
            }
        }
        true
    }

    /// Answers the part of `places` for the literal of a clause whose negation the fewest cubes have; of an empty clause, the empty part.
    fn fewest(&self, clause: &[Lit]) -> (usize, usize) {
        let mut fewest = (0, 0);
        let mut count = usize::MAX;
        for l in clause {
            let from = self.find(place_of(l.negate(), 0));
            let until = self.find(place_of(l.negate(), u32::MAX));
            if until.saturating_sub(from) < count {
                count = until.saturating_sub(from);
                fewest = (from, until);
            }
            if count == 0 {
                break;
            }
        }
        fewest
    }

    /// Notes that a lemma closes a cube, if the cube is open. Tells whether it was.
    fn close_one(&mut self, cube: u32, lemma: u32) -> bool {
        match self.closings.get_mut(cube as usize) {
            Some(closing) if *closing == OPEN => {
                *closing = lemma;
                self.open = self.open.saturating_sub(1);
                true
            }
            _ => false,
        }
    }

    /// Closes all open cubes by an empty lemma. Tells whether there was one.
    fn close_all(&mut self, lemma: u32) -> bool {
        let had = self.any_open();
        for closing in self.closings.iter_mut() {
            if *closing == OPEN {
                *closing = lemma;
            }
        }
        self.open = 0;
        had
    }

    /// Closes the open cubes that a lemma closes. Tells whether there is one.
    pub(crate) fn close(&mut self, clause: &[Lit], lemma: u32) -> bool {
        if clause.is_empty() {
            return self.close_all(lemma);
        }
        let (from, until) = self.fewest(clause);
        let mut closes = false;
        for place in from..until {
            let cube = match self.places.get(place) {
                Some(&word) => (word & 0xFFFF_FFFF) as u32,
                None => break,
            };
            if self.has_all(cube, clause) && self.close_one(cube, lemma) {
                closes = true;
            }
        }
        closes
    }

    /// Takes the cubes apart: by cube, the lemma that closes it.
    pub(crate) fn into_closings(self) -> Vec<u32> {
        let OpenCubes {
            places: _,
            closings,
            open: _,
        } = self;
        closings
    }
}

/// Answers the lemma among `closings` that closes a cube; `None` if it is open.
pub(crate) fn closing_of(closings: &[u32], cube: usize) -> Option<u32> {
    match closings.get(cube) {
        Some(&lemma) if lemma != OPEN => Some(lemma),
        _ => None,
    }
}
