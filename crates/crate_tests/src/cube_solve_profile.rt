//! What a search chooses where its contract leaves it free, told by its log.

use crate::cube_solve_searches::{base_of, log_at};
use dimacs::Base;
use lrat_text::{StepBuffer, StepRef, cut_line, read_line};
use std::alloc::{AllocError, Global};
use std::fmt::Write;
use std::process::Abort;
use std::test::Fail;

/// The number of the first lemma over the pigeons' clauses.
const FIRST: u64 = 298;

/// Nine pigeons in eight holes.
fn pigeons(alloc: Global) -> Result<String, AllocError> {
    let mut text = String::new(alloc);
    text.push_str("p cnf 72 297\n")?;
    for pigeon in 0..9u32 {
        for hole in 1..9u32 {
            write!(text, "{} ", 8 * pigeon + hole)?;
        }
        text.push_str("0\n")?;
        for other in 0..pigeon {
            for hole in 1..9u32 {
                write!(text, "-{} -{} 0\n", 8 * pigeon + hole, 8 * other + hole)?;
            }
        }
    }
    Ok(text)
}

/// What a log tells of its lemmas, in the order in which they were learnt.
#[derive(Drop)]
struct Told {
    /// When each was used last: by a line whose hints name it, or its own. The time is the number of lemmas then.
    used: Vec<usize>,
    /// Whether it has three or more literals, and was not deleted.
    may_go: Vec<bool>,
    /// The number of lemmas that are not deleted.
    live: usize,
    /// The number of lemmas at the last reduction. The first one finds none that was not used lately, and has no line.
    reduced: usize,
}

impl Told {
    fn use_all(&mut self, hints: &[u64]) {
        let now = self.used.len();
        for &hint in hints {
            if hint >= FIRST && ((hint - FIRST) as usize) < self.used.len() {
                self.used[(hint - FIRST) as usize] = now;
            }
        }
    }

    fn learn(&mut self, literals: usize) -> Result<(), AllocError> {
        let now = self.used.len();
        self.used.push(now)?;
        self.may_go.push(literals > 2)?;
        self.live = self.live.saturating_add(1);
        Ok(())
    }

    /// The number of lemmas that may go, and were not used since the last reduction. A log does not tell whether they have
    /// few levels, and so stay.
    fn candidates(&self) -> usize {
        let mut candidates = 0usize;
        for i in 0..self.used.len().min(self.may_go.len()) {
            if self.may_go[i] && self.used[i] < self.reduced {
                candidates = candidates.saturating_add(1);
            }
        }
        candidates
    }

    fn is_candidate(&self, id: u64) -> bool {
        if id < FIRST || (id - FIRST) as usize >= self.used.len().min(self.may_go.len()) {
            return false;
        }
        let place = (id - FIRST) as usize;
        self.may_go[place] && self.used[place] < self.reduced
    }

    /// Whether these lemmas are at most three quarters of the candidates, and leave 2,000 lemmas.
    fn are_spare(&self, ids: &[u64]) -> bool {
        for id in ids {
            if !self.is_candidate(*id) {
                return false;
            }
        }
        ids.len().saturating_mul(4) <= self.candidates().saturating_mul(3)
            && self.live.saturating_sub(ids.len()) >= 2000
    }

    fn delete(&mut self, ids: &[u64]) {
        for &id in ids {
            if id >= FIRST && ((id - FIRST) as usize) < self.may_go.len() {
                self.may_go[(id - FIRST) as usize] = false;
            }
        }
        self.live = self.live.saturating_sub(ids.len());
        self.reduced = self.used.len();
    }
}

/// Takes a line of a log, of which a deletion is one of lemmas that may go. Whether it is a deletion.
fn take_line(rt: &impl Abort, told: &mut Told, step: &mut StepBuffer, line: &[u8]) -> bool {
    assert!(rt; read_line(step, line).is_ok());
    match step.as_ref() {
        StepRef::Add { lits, hints, .. } => {
            told.use_all(hints);
            told.learn(lits.len()).expect(rt, "memory");
            false
        }
        StepRef::Delete { ids } => {
            assert!(rt; told.are_spare(ids));
            told.delete(ids);
            true
        }
    }
}

/// Each deletion of a log is one of lemmas that may go: how many deletions there are.
fn deletions_of(rt: &impl Abort, alloc: Global, log: &[u8]) -> u32 {
    let mut told = Told {
        used: Vec::new(alloc),
        may_go: Vec::new(alloc),
        live: 0,
        reduced: 2001,
    };
    let mut step = StepBuffer::new(alloc);
    let mut deletions = 0u32;
    let mut rest = log;
    for _ in 0..4000 {
        let Some((line, later)) = cut_line(rest) else {
            break;
        };
        if take_line(rt, &mut told, &mut step, line) {
            deletions = deletions.saturating_add(1);
        }
        rest = later;
    }
    deletions
}

pub(crate) fn pigeons_base(alloc: Global) -> Result<Base, Fail> {
    base_of(alloc, pigeons(alloc)?.as_str().as_bytes())
}

#[test]
fn what_was_not_used_lately_is_forgotten(rt: HostRuntime) -> Result<(), Fail> {
    let base = pigeons_base(rt.alloc())?;
    let log = log_at(&rt, rt.alloc(), &base, 3600);
    assert_eq!(rt; deletions_of(&rt, rt.alloc(), &log), 6);
    Ok(())
}

/// A number that another text hardly has (Fowler, Noll and Vo).
fn digest_of(text: &[u8]) -> u64 {
    let mut digest: u64 = 14695981039346656037;
    for byte in text {
        digest = (digest ^ *byte as u64).wrapping_mul(1099511628211);
    }
    digest
}

/// The digest of a search's log at a limit.
fn course(rt: &impl Abort, alloc: Global, base: &Base, limit: u64) -> u64 {
    digest_of(&log_at(rt, alloc, base, limit))
}

/// Limits of one search, and the digests there: in its first focused phase, in its first stable one, after the first deletion, and
/// after a rephasing.
const LIMITS: (u64, u64, u64, u64) = (200, 1200, 2700, 6000);

const DIGESTS: (u64, u64, u64, u64) = (
    7158750054415200697,
    17435167404302315649,
    11944888001951177138,
    8012342352141193753,
);

/// The digests change if a search bumps, saves values, minimises, restarts, changes its phase or forgets in another way.
#[test]
fn a_search_takes_its_course(rt: HostRuntime) -> Result<(), Fail> {
    let base = pigeons_base(rt.alloc())?;
    let digests = (
        course(&rt, rt.alloc(), &base, LIMITS.0),
        course(&rt, rt.alloc(), &base, LIMITS.1),
        course(&rt, rt.alloc(), &base, LIMITS.2),
        course(&rt, rt.alloc(), &base, LIMITS.3),
    );
    assert_eq!(&rt; digests, DIGESTS);
    Ok(())
}
