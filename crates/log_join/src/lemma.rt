//! Lemmas of the joined proof, which close leaves.

ghost use Rattle.std.specs.Prelude.{All};
ghost use Rattle.dimacs.specs.logic.Literal.{IsWithin};
ghost use Rattle.lrat_text.specs.Grammar.{IsClauseNumber};

use dimacs::Lit;

/// A clause of the joined proof, and its number there.
#[derive(Drop)]
pub(crate) struct Lemma {
    pub(crate) id: u64,
    pub(crate) clause: Vec<Lit>,
    ghost numbered: { IsClauseNumber id },
    ghost small: { All (IsWithin 199999999) clause.items },
}

/// A borrowed lemma, and the set of the indices of the open leaves that it may close.
#[derive(Clone, Copy)]
pub(crate) struct Candidate<'a> {
    pub(crate) id: u64,
    pub(crate) clause: &'a [Lit],
    pub(crate) found: &'a [u64],
    ghost numbered: { IsClauseNumber id },
    ghost small: { All (IsWithin 199999999) clause.now },
}
