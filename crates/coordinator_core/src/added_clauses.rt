//! Clauses are added to the formula of a coordinator.

ghost use Rattle.std.specs.Prelude.{◌≡◌, ◌<◌, ◌^◌, [], ◌∷◌, length, OnOk, OnErr};
ghost use Rattle.lrat_check.specs.Verdicts.{Right};
ghost use Rattle.cube_split.specs.Pairs.{AreOf, Definitions};
ghost use Rattle.evidence.specs.Evidence.{bytes_in};
ghost use Rattle.coordinator_core.specs.Coordinator.{new_coordinator};
ghost use Rattle.coordinator_core.specs.AddedClauses.{ExtendsCoordinator};

use crate::coordinator::Coordinator;
use dimacs::Extension;
use evidence::{Grown, grow};
use icnf::Tree;
use lrat_check::Reaction;
use std::alloc::AllocError;

impl Coordinator {
    /// Adds clauses to the coordinator's formula. The coordinator is then as newly made from the longer formula, in this session, with as
    /// many definitions, a tree of one leaf, the same limit and number of workers, except that it holds what is kept of its verdict: what
    /// is right for the longer formula.
    ///
    /// `Refused(4)` if the longer formula would exceed a written limit. After that and after `NoMemory` the coordinator is unchanged.
    pub fn extend(&mut self, extension: &Extension, session: u64) -> Reaction
        ensures { ExtendsCoordinator self.old extension.now session result self.new }
    {
        match grow(self.alloc, &self.formula, extension, &self.verdict) {
            Ok(Some(grown)) => match self.restart_extended(grown, session) {
                Ok(()) => Reaction::Taken,
                Err(_) => Reaction::NoMemory,
            },
            Ok(None) => Reaction::Refused(4),
            Err(_) => Reaction::NoMemory,
        }
    }

    /// Restarts the coordinator with the longer formula, a tree of one leaf, and the kept verdict. If memory is refused, the coordinator is
    /// unchanged.
    fn restart_extended(&mut self, grown: Grown, session: u64) -> Result<(), AllocError>
        requires right { Right grown.formula grown.verdict }
        requires short { length (bytes_in grown.verdict) < 2 ^ 32 }
        ensures ok { OnOk result ((d : Definitions) × AreOf grown.formula d × (d.wanted ≡ self.old.definitions.wanted)
            × (self.new ≡ record (new_coordinator grown.formula ([] ∷ []) self.old.limit (length self.old.jobs) session) { definitions = d; verdict = grown.verdict })) }
        ensures err { OnErr result (self.new ≡ self.old) }
    {
        let Grown { formula, verdict } = grown;
        let tree = Tree::leaf(self.alloc)?;
        let workers = self.workers();
        let mut coordinator = Coordinator::with_defs(
            self.alloc, formula, tree, self.limit, workers, session, self.defs,
        )?;
        coordinator.decide(verdict);
        *self = coordinator;
        Ok(())
    }
}
