//! The completion of a join: the open leaves, and, once every leaf is closed, the lines of the forks.

ghost use Rattle.std.specs.Prelude.{◌≡◌, ◌≢◌, ℕ, ◌+◌, ◌^◌, ◌<◌, ◌≤◌, ◌++◌, ◌∷◌, [], true, false, List, length, OnOk, OnErr, IfOk, IfErr};
ghost use Rattle.std.specs.List.{list_all};
ghost use Rattle.dimacs.specs.logic.Cnf.{Cnf};
ghost use Rattle.icnf.specs.Leaves.{Cube};
ghost use Rattle.lrat_text.specs.Proof.{Accepts};
ghost use Rattle.lrat_text.specs.Runs.{text_of, top_of};
ghost use Rattle.lrat_text.specs.declared.step.Step.{Step};
ghost use Rattle.proof_join.specs.RenumberedProof.{RefutesByRup};
ghost use Rattle.log_join.specs.ClosedLeaves.{is_closed, open_from};
ghost use Rattle.log_join.specs.JoinedLogs.{IsJoinOf, IsJoinTextOf, Handed, forks};
ghost use Rattle.log_join.specs.Written.{Appends, BetweenLogs, leaves_of};
ghost use Rattle.log_join.specs.Trees.{leaves_in};
ghost use Rattle.log_join.specs.inner.Trees.{ended};

use crate::fault::LogJoinFault;
use crate::fork_writer::ForkWriter;
use crate::log_joiner::LogJoiner;
use crate::tree::{Node, is_closed_below, open_below};
use std::alloc::{AllocError, Global};

/// Returns the lines of the forks of a tree, under the numbers after `top`. `Open` if a leaf is open, `TooLong` if a number would reach
/// 2^48.
fn fork_lines(alloc: Global, tree: &Node, top: u64) -> Result<Vec<u8>, LogJoinFault>
    requires { top < 2 ^ 48 }
    ensures text { IfOk result (λ text. text.items ≡ text_of top (forks [] top (ended tree.now)).steps) }
    ensures few { OnOk result ((forks [] top (ended tree.now)).top < 2 ^ 48) }
    ensures closed { OnOk result (list_all is_closed (leaves_in tree.now) ≡ true) }
    ensures long { IfErr result (λ f. f ≡ LogJoinFault.TooLong → 2 ^ 48 ≤ (forks [] top (ended tree.now)).top) }
    ensures open { IfErr result (λ f. f ≡ LogJoinFault.Open → list_all is_closed (leaves_in tree.now) ≡ false) }
{
    let mut writer = ForkWriter {
        alloc,
        path: Vec::new(alloc),
        top,
        lines: Vec::new(alloc),
    };
    writer.put_below(tree)?;
    let ForkWriter { lines, .. } = writer;
    Ok(lines)
}

impl LogJoiner {
    /// Tells whether every leaf is closed.
    pub fn is_complete(&self) -> bool
        ensures { (F : Cnf) (cubes : List Cube) (logs : List Handed) (written : List ℕ)
            → BetweenLogs F cubes logs self.now written → result ≡ list_all is_closed (leaves_of self.now) }
    {
        is_closed_below(&self.tree)
    }

    /// Lists the open leaves by their indices, from 0, rising.
    pub fn missing(&self) -> Result<Vec<usize>, AllocError>
        ensures { IfOk result (λ places. length (leaves_of self.now) < 2 ^ 64 → places.items ≡ open_from 0 (leaves_of self.now)) }
    {
        let mut places = Vec::new(self.alloc);
        let mut next = 0;
        open_below(&self.tree, &mut next, &mut places)?;
        Ok(places)
    }

    /// Appends the lines of the forks, each after those of its left and its right branch. Then what was written is a proof of the formula:
    /// its last line adds the empty clause. On an error `out` is unchanged.
    ///
    /// `Open` is answered only if a leaf is open, and `TooLong` only if a number of the proof would reach 2^48.
    pub fn forks(&self, out: &mut Vec<u8>) -> Result<(), LogJoinFault>
        ensures proof { OnOk result (Appends out.old.items out.new.items (λ more. (F : Cnf) (cubes : List Cube) (logs : List Handed) (written : List ℕ)
            → BetweenLogs F cubes logs self.now written
            → IsJoinTextOf F cubes logs (written ++ more) × RefutesByRup F (written ++ more) × Accepts F (written ++ more))) }
        ensures closed { OnOk result (list_all is_closed (leaves_of self.now) ≡ true) }
        ensures err { OnErr result (out.new.items ≡ out.old.items) }
        ensures open { IfErr result (λ f. f ≡ LogJoinFault.Open → list_all is_closed (leaves_of self.now) ≡ false) }
        ensures long { IfErr result (λ f. f ≡ LogJoinFault.TooLong → (F : Cnf) (cubes : List Cube) (logs : List Handed) (written : List ℕ) (steps : List Step)
            → BetweenLogs F cubes logs self.now written → IsJoinOf F cubes logs steps → 2 ^ 48 ≤ top_of (length F.clauses) steps) }
    {
        let lines = fork_lines(self.alloc, &self.tree, self.top)?;
        out.extend_from_slice(&lines)?;
        Ok(())
    }
}
