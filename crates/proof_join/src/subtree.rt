//! The clause that each subtree proves: a leaf's last clause, or a fork's resolvent.

ghost use Rattle.std.specs.Prelude.{◌≡◌, ◌+◌, ◌^◌, ◌<◌, ◌≤◌, ◌++◌, ◌∷◌, [], ◌||◌, true, false, List, map, filter, length, take, All, OnOk, IfOk};
ghost use Rattle.dimacs.specs.logic.Literal.{Clause, IsWithin, negation, has};
ghost use Rattle.lrat_text.specs.declared.step.Step.{Step};
ghost use Rattle.proof_join.specs.JoinedProof.{leaf_part, resolvent};
ghost use Rattle.lrat_text.specs.Runs.{text_of};
ghost use Rattle.proof_join.specs.Steps.{own_part, steps_in};
ghost use Rattle.proof_join.specs.inner.Steps.{IsFragment, Writes, clause_of};

use crate::fault::JoinFault;
use crate::lines::{Scratch, Shift, put_fragment};
use crate::output::{Output, put_line};
use dimacs::{Lit, has_literal};
use lrat_text::{Groups, StepBuffer, StepRef};
use packed_text::PackedText;
use std::alloc::{AllocError, Global};

/// The clause that a subtree proves, and its number `id`. It has negations of literals of the path to the subtree, and no other literal.
#[derive(Drop)]
pub(crate) struct Subtree {
    pub(crate) id: u64,
    pub(crate) clause: Vec<Lit>,
}

/// The writer of the joined text: the text so far, the number `top` of its last addition, and the buffers in which fragments are read.
#[derive(Drop)]
pub(crate) struct Writer<'t> {
    pub(crate) out: Output<'t>,
    pub(crate) top: u64,
    pub(crate) scratch: Scratch,
}

/// Returns the clause of a fork: the resolvent of its branches' clauses. Those have only negations
/// of the cube's literals, so the resolvent is collected along the path: each literal's negation,
/// if one of the clauses has it.
fn resolve(alloc: Global, path: &[Lit], left: &[Lit], right: &[Lit]) -> Result<Vec<Lit>, AllocError>
    ensures { IfOk result (λ c. c.items ≡ resolvent path.now left.now right.now) }
{
    let mut clause = Vec::new(alloc);
    for l in path {
        let negated = l.negate();
        if has_literal(left, negated) || has_literal(right, negated) {
            clause.push(negated)?;
        }
    }
    Ok(clause)
}

/// The clause that the step in the buffer adds; no literal if the step is a deletion.
fn last_clause(alloc: Global, buffer: &StepBuffer) -> Result<Vec<Lit>, AllocError>
    ensures { IfOk result (λ c. c.items ≡ clause_of buffer.now) }
{
    match buffer.as_ref() {
        StepRef::Add { lits, .. } => Vec::from_slice(alloc, lits),
        StepRef::Delete { .. } => Ok(Vec::new(alloc)),
    }
}

/// Appends the fragment of a leaf; its numbers above `base` go on after the last one written. Returns the leaf as a subtree.
pub(crate) fn put_leaf(
    alloc: Global,
    writer: &mut Writer<'_>,
    base: u64,
    fragment: &PackedText,
) -> Result<Subtree, JoinFault>
    requires fragment { IsFragment base fragment.now }
    requires begun { (1 ≤ base) × (base ≤ writer.old.top) × (writer.old.top ≤ base + length writer.old.out) }
    requires short { (base < 2 ^ 40) × (length writer.old.out < 2 ^ 32) }
    ensures text { Writes result writer.new.out (writer.old.out ++ text_of writer.old.top (leaf_part base writer.old.top (steps_in fragment.now)).steps) }
    ensures top { OnOk result (writer.new.top ≡ (leaf_part base writer.old.top (steps_in fragment.now)).top) }
    ensures subtree { IfOk result (λ s. (s.id ≡ (leaf_part base writer.old.top (steps_in fragment.now)).id) × (s.clause.items ≡ (leaf_part base writer.old.top (steps_in fragment.now)).clause)) }
    ensures few { OnOk result ((writer.old.top ≤ writer.new.top) × (writer.new.top ≤ base + length writer.new.out)) }
    ensures small { IfOk result (λ s. (1 ≤ s.id) × (s.id ≤ writer.new.top) × All (IsWithin 199999999) s.clause.items) }
{
    let begun = writer.top;
    writer.top = put_fragment(
        alloc,
        &mut writer.out,
        &mut writer.scratch,
        Shift { base, begun },
        fragment,
    )?;
    let clause = last_clause(alloc, &writer.scratch.buffer)?;
    Ok(Subtree {
        id: writer.top,
        clause,
    })
}

/// Appends the line of a fork after those of its branches. Returns the fork as a subtree. No line is needed if the clause of a branch does
/// not have the negation of the branch's literal, since that clause proves the fork too.
pub(crate) fn put_fork(
    alloc: Global,
    writer: &mut Writer<'_>,
    path: &[Lit],
    branch: Lit,
    left: Subtree,
    right: Subtree,
) -> Result<Subtree, JoinFault>
    requires left { (1 ≤ left.id) × (left.id ≤ writer.old.top) × All (IsWithin 199999999) left.clause.items }
    requires right { (1 ≤ right.id) × (right.id ≤ writer.old.top) × All (IsWithin 199999999) right.clause.items }
    requires top { (1 ≤ writer.old.top) × (writer.old.top + 1 < 2 ^ 48) }
    requires short { length writer.old.out < 2 ^ 32 }
    ensures text { Writes result writer.new.out (writer.old.out ++ text_of writer.old.top (own_part path.now branch writer.old.top left.id left.clause.items right.id right.clause.items).steps) }
    ensures top { OnOk result (writer.new.top ≡ (own_part path.now branch writer.old.top left.id left.clause.items right.id right.clause.items).top) }
    ensures id { IfOk result (λ s. s.id ≡ (own_part path.now branch writer.old.top left.id left.clause.items right.id right.clause.items).id) }
    ensures clause { IfOk result (λ s. s.clause.items ≡ (own_part path.now branch writer.old.top left.id left.clause.items right.id right.clause.items).clause) }
    ensures few { OnOk result ((writer.old.top ≤ writer.new.top) × (writer.new.top + length writer.old.out ≤ writer.old.top + length writer.new.out)) }
    ensures small { IfOk result (λ s. (1 ≤ s.id) × (s.id ≤ writer.new.top) × All (IsWithin 199999999) s.clause.items) }
{
    if !has_literal(&left.clause, branch.negate()) {
        return Ok(left);
    }
    if !has_literal(&right.clause, branch) {
        return Ok(right);
    }
    let clause = resolve(alloc, path, &left.clause, &right.clause)?;
    let id = writer.top + 1;
    let groups = Groups::new(alloc);
    let line = StepRef::Add {
        id,
        lits: &clause,
        hints: &[left.id, right.id],
        groups: &groups,
    };
    put_line(&mut writer.out, writer.top, line)?;
    writer.top = id;
    Ok(Subtree { id, clause })
}
