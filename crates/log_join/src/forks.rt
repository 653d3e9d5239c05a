//! The lines of forks, each of which resolves the lemmas of its branches.

ghost use Rattle.std.specs.Prelude.{◌≡◌, ◌≢◌, ◌+◌, ◌^◌, ◌<◌, ◌≤◌, ◌++◌, ◌∷◌, [], true, false, IfOk, IfErr, OnOk};
ghost use Rattle.std.specs.List.{list_all};
ghost use Rattle.proof_join.specs.JoinedProof.{resolvent};
ghost use Rattle.proof_join.specs.Steps.{own_part};
ghost use Rattle.log_join.specs.ClosedLeaves.{is_closed};
ghost use Rattle.log_join.specs.JoinedLogs.{forks};
ghost use Rattle.log_join.specs.Trees.{leaves_in, lemma_of};
ghost use Rattle.log_join.specs.inner.Trees.{ended};
ghost use Rattle.log_join.specs.inner.Forks.{HasPut};

use crate::fault::LogJoinFault;
use crate::fork_writer::ForkWriter;
use crate::lemma::Lemma;
use crate::line_writer::put_line;
use crate::numbers::LIMIT;
use crate::tree::Node;
use dimacs::{Lit, has_literal};
use lrat_text::{Groups, StepRef};
use std::alloc::{AllocError, Global};

/// Returns a copy of a lemma, since the tree keeps the one that closed the leaf.
fn copy_of(alloc: Global, lemma: &Lemma) -> Result<Lemma, AllocError>
    ensures { IfOk result (λ l. lemma_of l ≡ lemma_of lemma.now) }
{
    let id = lemma.id;
    let clause = Vec::from_slice(alloc, &lemma.clause)?;
    Ok(Lemma { id, clause })
}

/// Returns the clause of a fork: the resolvent of its branches' clauses. Those have only negations
/// of the cube's literals, so the resolvent is collected along the path: each literal's negation,
/// if one of the clauses has it.
fn resolve(alloc: Global, path: &[Lit], left: &[Lit], right: &[Lit]) -> Result<Vec<Lit>, AllocError>
    ensures { IfOk result (λ c. c.items ≡ resolvent path.now left.now right.now) }
{
    let mut clause = Vec::new(alloc);
    for l in path {
        let negated = l.negate();
        if has_literal(left, negated) || has_literal(right, negated) {
            clause.push(negated)?;
        }
    }
    Ok(clause)
}

impl ForkWriter {
    /// Appends the line of a fork after those of its branches, and returns the lemma that the fork proves. A fork needs no line if the
    /// lemma of a branch does not have the negation of the branch's literal, since that lemma proves the fork too. `TooLong` if the number
    /// would reach 2^48.
    fn put_fork(&mut self, branch: Lit, left: Lemma, right: Lemma) -> Result<Lemma, LogJoinFault>
        ensures put { IfOk result (λ l. HasPut (own_part self.old.path.items branch self.old.top left.id left.clause.items right.id right.clause.items) self.old self.new l) }
        ensures long { IfErr result (λ f. f ≡ LogJoinFault.TooLong
            → 2 ^ 48 ≤ (own_part self.old.path.items branch self.old.top left.id left.clause.items right.id right.clause.items).top) }
        ensures open { IfErr result (λ f. f ≢ LogJoinFault.Open) }
    {
        if !has_literal(&left.clause, branch.negate()) {
            return Ok(left);
        }
        if !has_literal(&right.clause, branch) {
            return Ok(right);
        }
        if self.top + 1 == LIMIT {
            return Err(LogJoinFault::TooLong);
        }
        let clause = resolve(self.alloc, &self.path, &left.clause, &right.clause)?;
        let id = self.top + 1;
        let groups = Groups::new(self.alloc);
        let line = StepRef::Add {
            id,
            lits: &clause,
            hints: &[left.id, right.id],
            groups: &groups,
        };
        put_line(line, id, &mut self.lines)?;
        self.top = id;
        Ok(Lemma { id, clause })
    }

    /// Appends the lines of the forks in a branch, and returns the lemma that the branch proves.
    /// The branch's literal is on the path during the call.
    #[cycle(put)]
    fn put_branch(&mut self, taken: Lit, node: &Node) -> Result<Lemma, LogJoinFault>
        ensures put { IfOk result (λ l. HasPut (forks (self.old.path.items ++ taken ∷ []) self.old.top (ended node.now)) self.old self.new l) }
        ensures closed { OnOk result (list_all is_closed (leaves_in node.now) ≡ true) }
        ensures long { IfErr result (λ f. f ≡ LogJoinFault.TooLong → 2 ^ 48 ≤ (forks (self.old.path.items ++ taken ∷ []) self.old.top (ended node.now)).top) }
        ensures open { IfErr result (λ f. f ≡ LogJoinFault.Open → list_all is_closed (leaves_in node.now) ≡ false) }
    {
        self.path.push(taken)?;
        let lemma = self.put_below(node)?;
        self.path.pop();
        Ok(lemma)
    }

    /// Appends the lines of a subtree's forks, each after those of its left and its right branch, and returns the lemma that the subtree
    /// proves. `Open` if a leaf is open, `TooLong` if a number would reach 2^48.
    #[cycle(put)]
    pub(crate) fn put_below(&mut self, node: &Node) -> Result<Lemma, LogJoinFault>
        ensures put { IfOk result (λ l. HasPut (forks self.old.path.items self.old.top (ended node.now)) self.old self.new l) }
        ensures closed { OnOk result (list_all is_closed (leaves_in node.now) ≡ true) }
        ensures long { IfErr result (λ f. f ≡ LogJoinFault.TooLong → 2 ^ 48 ≤ (forks self.old.path.items self.old.top (ended node.now)).top) }
        ensures open { IfErr result (λ f. f ≡ LogJoinFault.Open → list_all is_closed (leaves_in node.now) ≡ false) }
    {
        match node {
            Node::Leaf { closing, .. } => match closing {
                Some(lemma) => Ok(copy_of(self.alloc, lemma)?),
                None => Err(LogJoinFault::Open),
            },
            Node::Fork {
                branch,
                left,
                right,
                ..
            } => {
                let first = self.put_branch(*branch, left)?;
                let second = self.put_branch(branch.negate(), right)?;
                self.put_fork(*branch, first, second)
            }
        }
    }
}
