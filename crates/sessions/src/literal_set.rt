//! A set of literals that is cleared in constant time, by stamps.

ghost use Rattle.std.specs.Prelude.{◌≡◌, ℕ, ◌<◌, ◌≤◌, [], OnOk, IfOk, slice_index, vec_len};
ghost use Rattle.std.specs.Bool.{OnFalse};
ghost use Rattle.std.specs.List.{list_all, list_any};
ghost use Rattle.dimacs.specs.logic.Literal.{has};
ghost use Rattle.dimacs.specs.logic.Propagation.{with_literal};
ghost use Rattle.lrat_check.specs.StepFaults.{is_tautology};
ghost use Rattle.sessions.specs.inner.Sets.{AllAtMost, set_in};

use dimacs::Lit;
use std::alloc::{AllocError, Global};

/// Grows a table of stamps to at least this many cells. A new cell has stamp 0, which a read after the table's end also gives.
fn grow(stamps: &mut Vec<u64>, places: usize) -> Result<(), AllocError>
    ensures fits { OnOk result (places ≤ vec_len stamps.new) }
    ensures same { (i : ℕ) → slice_index stamps.new.items i ≡ slice_index stamps.old.items i }
{
    if stamps.len() < places {
        stamps.resize(places, 0)?;
    }
    Ok(())
}

/// Puts a literal into the set: gives its cell the set's present stamp.
fn insert(stamps: &mut Vec<u64>, stamp: u64, literal: Lit) -> Result<(), AllocError>
    requires { AllAtMost stamp stamps.old.items }
    ensures put { OnOk result (set_in stamps.new.items stamp ≡ with_literal (set_in stamps.old.items stamp) literal) }
    ensures most { AllAtMost stamp stamps.new.items }
{
    let place = literal.index();
    grow(stamps, place + 1)?;
    stamps[place] = stamp;
    Ok(())
}

/// Answers whether a literal is in the set of this stamp; false if the table has no cell for the literal.
#[inline(always)]
fn is_in(stamps: &[u64], stamp: u64, literal: Lit) -> bool
    requires { 0 < stamp }
    ensures { result ≡ set_in stamps.now stamp literal }
{
    let place = literal.index();
    place < stamps.len() && stamps[place] == stamp
}

/// A set of literals. A literal is in the set if its stamp is the set's stamp; a new stamp clears the set.
pub(crate) struct LiteralSet {
    /// The stamp of each literal, by the literal's index.
    pub(crate) stamps: Vec<u64>,
    /// The set's stamp, at least 1. No literal has a greater one.
    pub(crate) stamp: u64,
    ghost most: { AllAtMost stamp stamps.items },
    ghost some: { 0 < stamp },
}

impl Drop for LiteralSet {
    fn drop(self) {
        let LiteralSet {
            stamps: _,
            stamp: _,
        } = self;
    }
}

impl LiteralSet {
    /// An empty set.
    pub(crate) fn new(alloc: Global) -> LiteralSet {
        LiteralSet {
            stamps: Vec::new(alloc),
            stamp: 1,
        }
    }

    /// Clears the set by a new stamp, which no cell has. Err if the stamp is above 64 bits.
    fn clear(&mut self) -> Result<(), AllocError>
        ensures { OnOk result (set_in self.new.stamps.items self.new.stamp ≡ has []) }
    {
        match self.stamp.checked_add(1) {
            Some(next) => {
                self.stamp = next;
                Ok(())
            }
            None => Err(AllocError),
        }
    }

    /// Overwrites the set with these literals, in time linear in their number.
    pub(crate) fn hold(&mut self, lits: &[Lit]) -> Result<(), AllocError>
        ensures { OnOk result (set_in self.new.stamps.items self.new.stamp ≡ has lits.now) }
    {
        self.clear()?;
        for l in lits {
            insert(&mut self.stamps, self.stamp, *l)?;
        }
        Ok(())
    }

    /// Overwrites the set with these literals, if no literal stands with its negation. Answers true
    /// if one does; then the set is unspecified.
    pub(crate) fn hold_apart(&mut self, lits: &[Lit]) -> Result<bool, AllocError>
        ensures pair { IfOk result (λ b. b ≡ is_tautology lits.now) }
        ensures holds { IfOk result (λ b. OnFalse b (set_in self.new.stamps.items self.new.stamp ≡ has lits.now)) }
    {
        self.clear()?;
        for l in lits {
            if is_in(&self.stamps, self.stamp, l.negate()) {
                return Ok(true);
            }
            insert(&mut self.stamps, self.stamp, *l)?;
        }
        Ok(false)
    }

    /// Answers whether all of these literals are in the set.
    pub(crate) fn has_all(&self, lits: &[Lit]) -> bool
        ensures { result ≡ list_all (set_in self.now.stamps.items self.now.stamp) lits.now }
    {
        lits.iter().all(|l| is_in(&self.stamps, self.stamp, *l))
    }

    /// Answers whether one of these literals is in the set.
    pub(crate) fn meets(&self, lits: &[Lit]) -> bool
        ensures { result ≡ list_any (set_in self.now.stamps.items self.now.stamp) lits.now }
    {
        lits.iter().any(|l| is_in(&self.stamps, self.stamp, *l))
    }
}
