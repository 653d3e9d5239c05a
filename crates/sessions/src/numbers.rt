//! The numbers of a session's clauses and lemmas, which rise.

ghost use Rattle.std.specs.Prelude.{◌≡◌, ◌<◌, [], ◌∷◌, ◌++◌, OnOk, OnErr, nat_eq};
ghost use Rattle.std.specs.List.{list_any};
ghost use Rattle.sessions.specs.inner.Sets.{IsRising, first_numbers};

use std::alloc::{AllocError, Global};
use std::marker::Model;

/// The numbers of the given clauses, and the greatest number so far. The given numbers rise, so that a binary search finds one.
#[derive(Drop)]
pub(crate) struct Numbers {
    /// The numbers of the given clauses, which rise.
    given: Vec<u64>,
    /// The greatest number of a clause or lemma so far; 0 if there is none.
    last: u64,
}

impl Model for Numbers {
    ghost use Rattle.sessions.specs.inner.Sets.{AllAtMost, IsRising, Numbered};

    ghost Value = { Numbered };

    ghost view = { λ g. record { given = g.given.items; last = g.last } };

    ghost invariant = { λ g. IsRising g.given.items × AllAtMost g.last g.given.items };
}

/// Answers whether a number is among numbers that rise.
fn find(numbers: &[u64], number: u64) -> bool
    requires { IsRising numbers.now }
    ensures { result ≡ list_any (nat_eq number) numbers.now }
{
    numbers.binary_search(&number).is_ok()
}

impl Numbers {
    /// An empty list of numbers; the greatest number so far is 0.
    pub(crate) fn new(alloc: Global) -> Numbers
        ensures { result ≡ first_numbers }
    {
        Numbers {
            given: Vec::new(alloc),
            last: 0,
        }
    }

    /// The numbers of the given clauses, in order.
    pub(crate) fn given(&self) -> &[u64]
        ensures { result.now ≡ self.now.given }
    {
        &self.given
    }

    /// The greatest number of a clause or lemma so far; 0 if there is none.
    pub(crate) fn last(&self) -> u64
        ensures { result ≡ self.now.last }
    {
        self.last
    }

    /// Answers whether a clause was given under this number.
    pub(crate) fn is_given(&self, number: u64) -> bool
        ensures { result ≡ list_any (nat_eq number) self.now.given }
    {
        find(&self.given, number)
    }

    /// Notes the number of a lemma as the greatest one so far.
    pub(crate) fn learn(&mut self, number: u64)
        requires { self.old.last < number }
        ensures { self.new ≡ record self.old { last = number } }
    {
        self.last = number;
    }

    /// Notes the number of a given clause, which becomes the greatest one so far.
    pub(crate) fn give(&mut self, number: u64) -> Result<(), AllocError>
        requires { self.old.last < number }
        ensures ok { OnOk result (self.new ≡ record { given = self.old.given ++ number ∷ []; last = number }) }
        ensures err { OnErr result (self.new ≡ self.old) }
    {
        self.given.push(number)?;
        self.last = number;
        Ok(())
    }
}
