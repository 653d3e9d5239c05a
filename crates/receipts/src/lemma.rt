//! The lemmas that a receipt names.

ghost use Rattle.std.specs.Prelude.{◌≡◌, All};
ghost use Rattle.dimacs.specs.logic.Literal.{IsWithin};
ghost use Rattle.lrat_text.specs.Grammar.{IsClauseNumber};

use dimacs::Lit;

/// A lemma that closes a leaf, with its number in the log.
#[derive(Drop)]
pub struct ClosingLemma {
    /// The lemma's number in the log, from 1 to 2^48 - 1.
    pub(crate) id: u64,
    /// The lemma's literals, of variables up to 2,000,000.
    pub(crate) clause: Vec<Lit>,
    ghost numbered: { IsClauseNumber id },
    ghost small: { All (IsWithin 2000000) clause.items },
}

impl ClosingLemma {
    /// The lemma's number in the log, from 1 to 2^48 - 1.
    pub fn id(&self) -> u64
        ensures { result ≡ self.now.id }
    {
        self.id
    }

    /// The lemma's literals, of variables up to 2,000,000.
    pub fn clause(&self) -> &[Lit]
        ensures { result.now ≡ self.now.clause.items }
    {
        &self.clause
    }
}
