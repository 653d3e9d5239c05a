//! The lines of a proof that add resolvents, as packed text.

ghost use Rattle.std.specs.Prelude.{◌≡◌, [], ◌∷◌, ◌++◌, OnOk};
ghost use Rattle.lrat_text.specs.Grammar.{IsStepWithin};
ghost use Rattle.lrat_text.specs.WrittenLine.{line_of};
ghost use Rattle.lrat_text.specs.declared.step.Step.TheVariants.{Add};

use dimacs::Lit;
use lrat_text::{Groups, StepRef};
use packed_text::PackedText;
use std::alloc::{AllocError, Global};
use std::marker::Model;

/// The lines that add resolvents, as packed text.
pub(crate) struct Lines {
    /// The lines so far.
    text: PackedText,
    /// The buffer of one line, reused.
    line: Vec<u8>,
    /// The empty list of RAT groups, which all lines share: no resolvent needs one.
    groups: Groups,
}

impl Drop for Lines {
    fn drop(self) {
        let Lines {
            text: _,
            line: _,
            groups: _,
        } = self;
    }
}

impl Model for Lines {
    ghost use Rattle.std.specs.Prelude.{◌≡◌, List, ℕ, []};

    ghost Value = { List ℕ };

    ghost view = { λ lines. lines.text };

    ghost invariant = { λ lines. lines.groups ≡ [] };
}

impl Lines {
    /// No lines.
    pub(crate) fn new(alloc: Global) -> Lines
        ensures { result ≡ [] }
    {
        Lines {
            text: PackedText::new(alloc),
            line: Vec::new(alloc),
            groups: Groups::new(alloc),
        }
    }

    /// Appends the line that adds a clause under the number `id`, with its hints.
    fn put(&mut self, id: u64, lits: &[Lit], hints: &[u64]) -> Result<(), AllocError>
        requires { IsStepWithin 199999999 (Add id lits.now hints.now []) }
        ensures { OnOk result (self.new ≡ self.old ++ line_of id (Add id lits.now hints.now [])) }
    {
        let step = StepRef::Add {
            id,
            lits,
            hints,
            groups: &self.groups,
        };
        self.text.put_within(step, id, &mut self.line)
    }

    /// Appends the line that adds a resolvent under the number `id`, with the numbers of the two
    /// clauses that it was made from as its hints.
    pub(crate) fn add(
        &mut self,
        id: u64,
        lits: &[Lit],
        left: u64,
        right: u64,
    ) -> Result<(), AllocError>
        requires { IsStepWithin 199999999 (Add id lits.now (left ∷ right ∷ []) []) }
        ensures { OnOk result (self.new ≡ self.old ++ line_of id (Add id lits.now (left ∷ right ∷ []) [])) }
    {
        self.put(id, lits, &[left, right])
    }

    /// Hands out the packed text.
    pub(crate) fn into_text(self) -> PackedText
        ensures { result ≡ self }
    {
        let Lines {
            text,
            line: _,
            groups: _,
        } = self;
        text
    }
}
