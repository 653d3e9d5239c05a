//! The loop that decides a formula: it plays rounds until a verdict is held or none is to be expected.

ghost use Rattle.std.specs.Prelude.{◌≡◌, ◌<◌, ◌≤◌, ◌+◌, ℕ, [], All, None, IfOk, OnOk, false, true};
ghost use Rattle.dimacs.specs.logic.Cnf.{Cnf};
ghost use Rattle.dimacs.specs.logic.Literal.{IsWithin};
ghost use Rattle.cube_split.specs.Pairs.{IsBaseWith};
ghost use Rattle.evidence.specs.Jobs.{IsOverBase};
ghost use Rattle.lrat_check.specs.Verdicts.{Right};
ghost use Rattle.lrat_check.specs.declared.verdict.Verdict.TheVariants.{Nothing};
ghost use Rattle.event_loop.specs.Accounts.{AreBounded, EachCloses, HasBegun, OnceEach, RoseBy, nobody, open_of};
ghost use Rattle.event_loop.specs.Ending.{HasEnded, is_decided, is_deserted};
ghost use Rattle.event_loop.specs.inner.Rounds.{is_over};
ghost use Rattle.event_loop.specs.Run.{formula_of, verdict_of};
ghost use Rattle.event_loop.specs.inner.Deliveries.{IdleHaveNothing, FirstEventHandled, NobodyIdle};
ghost use Rattle.event_loop.specs.inner.Registrations.{AreApart};

use crate::plan::Plan;
use crate::run::{ARRIVALS, Run};
use cube_split::Opened;
use dimacs::Formula;
use icnf::Tree;
use links::Arrivals;
use std::alloc::{AllocError, Global};

impl Run {
    /// Plays a round of a run that is not over and not deserted. A function of its own, for its
    /// contract. Answers whether an event may come after it. An error is want of memory.
    fn turn<A: Arrivals>(&mut self, links: &mut A) -> Result<bool, AllocError>
        requires over { is_over self.old ≡ false }
        requires deserted { is_deserted self.old ≡ false }
        ensures formula { formula_of self.new ≡ formula_of self.old }
        ensures one { RoseBy 1 (A.call_count links.old) (A.call_count links.new) }
        ensures most { A.call_count links.new ≤ A.call_count links.old + 1033984 }
        ensures rises { A.call_count links.old ≤ A.call_count links.new }
        ensures arrivals { A.arrival_count links.old ≤ A.arrival_count links.new }
        ensures arrived { IfOk result (λ goes_on. goes_on ≡ true → A.arrival_count links.new ≡ A.arrival_count links.old + 1) }
        // A link that refuses a call is closed: at each place refusals and open connections
        // together rise by no more than the links that begin there.
        ensures each { EachCloses (open_of self.old) (open_of self.new) (A.link_count links.old) (A.link_count links.new) (A.refusal_count links.old) (A.refusal_count links.new) }
        ensures first { self.old.slots.items ≡ [] → verdict_of self.new ≡ verdict_of self.old }
        ensures apart { AreApart self.old.slots.items → AreApart self.new.slots.items }
        ensures told { OnOk result (IdleHaveNothing self.new.slots.items self.new.dispatcher.coordinator) }
        ensures over { IfOk result (λ goes_on. goes_on ≡ false → A.has_ended links.new ≡ true) }
        ensures handled { OnOk result (FirstEventHandled A.came links.old self.old) }
    {
        self.round(links)
    }

    /// Plays rounds until a verdict is held, the coordinator is stuck, no event can come any more, no connection was open for too long, or
    /// 2^63 events were handled. An error is want of memory.
    fn go_on<A: Arrivals>(&mut self, links: &mut A) -> Result<(), AllocError>
        requires links { self.old.slots.items ≡ [] }
        requires verdict { verdict_of self.old ≡ Nothing }
        requires stuck { self.old.dispatcher.coordinator.stuck ≡ false }
        requires linked { self.old.linked ≡ None }
        ensures formula { formula_of self.new ≡ formula_of self.old }
        ensures used { OnOk result (HasBegun (A.call_count links.old) (A.call_count links.new) (verdict_of self.new)) }
        ensures most { AreBounded (A.arrival_count links.old) (A.arrival_count links.new) (A.call_count links.old) (A.call_count links.new) }
        // A link that refuses a call is closed: at each place refusals and open connections
        // together rise by no more than the links that begin there.
        ensures each { EachCloses (open_of self.old) (open_of self.new) (A.link_count links.old) (A.link_count links.new) (A.refusal_count links.old) (A.refusal_count links.new) }
        ensures apart { AreApart self.new.slots.items }
        ensures ended { OnOk result (HasEnded (A.arrival_count links.old) (A.arrival_count links.new) (A.has_ended links.new) self.new) }
        ensures none_idle { OnOk result (is_decided (verdict_of self.new) ≡ true → NobodyIdle self.new.slots.items 255) }
    {
        for _ in 0..ARRIVALS {
            if self.is_over() {
                return Ok(());
            }
            let goes_on = self.turn(links)?;
            if !goes_on {
                return Ok(());
            }
            if self.is_deserted() {
                return Ok(());
            }
        }
        Ok(())
    }
}

/// Decides a formula over links that come and go. It returns when a verdict is held, the coordinator is stuck, no event can come any more,
/// no connection was open for too long, or 2^63 events were handled, and leaves the links as they are. An error is want of memory.
pub fn decide<A: Arrivals>(
    alloc: Global,
    formula: Formula,
    tree: Tree,
    plan: &Plan,
    links: &mut A,
) -> Result<Run, AllocError>
    requires inside { (B : Cnf) → IsBaseWith formula plan.now.defs B → All (IsOverBase B) tree }
    requires narrow { 1000000 < formula.vars → All (All (IsWithin 2000000)) tree }
    requires workers { (1 ≤ plan.now.workers) × (plan.now.workers ≤ 64) }
    requires defs { plan.now.defs ≤ 64 }
    ensures right { IfOk result (λ r. Right formula (verdict_of r)) }
    ensures used { IfOk result (λ r. HasBegun (A.call_count links.old) (A.call_count links.new) (verdict_of r)) }
    ensures most { AreBounded (A.arrival_count links.old) (A.arrival_count links.new) (A.call_count links.old) (A.call_count links.new) }
    ensures each { OnceEach (A.link_count links.old) (A.link_count links.new) (A.refusal_count links.old) (A.refusal_count links.new) }
    ensures ended { IfOk result (λ r. HasEnded (A.arrival_count links.old) (A.arrival_count links.new) (A.has_ended links.new) r) }
    // A link that refuses a call is closed: at each place refusals and open connections together
    // rise by no more than the links that begin there.
    ensures closes { IfOk result (λ r. EachCloses nobody (open_of r) (A.link_count links.old) (A.link_count links.new) (A.refusal_count links.old) (A.refusal_count links.new)) }
{
    let opened = Opened::of(alloc, formula, plan.defs)?;
    decide_of(alloc, opened, tree, plan, links)
}

/// Decides a formula whose preamble is known over links that come and go; the preamble's
/// definitions count, and not those of the plan. It returns when a verdict is held, the coordinator
/// is stuck, no event can come any more, no connection was open for too long, or 2^63 events were
/// handled. An error is want of memory.
pub fn decide_of<A: Arrivals>(
    alloc: Global,
    opened: Opened,
    tree: Tree,
    plan: &Plan,
    links: &mut A,
) -> Result<Run, AllocError>
    requires inside { (B : Cnf) → IsBaseWith opened.formula opened.definitions.wanted B → All (IsOverBase B) tree }
    requires narrow { 1000000 < opened.formula.vars → All (All (IsWithin 2000000)) tree }
    requires workers { (1 ≤ plan.now.workers) × (plan.now.workers ≤ 64) }
    ensures right { IfOk result (λ r. Right opened.formula (verdict_of r)) }
    ensures used { IfOk result (λ r. HasBegun (A.call_count links.old) (A.call_count links.new) (verdict_of r)) }
    ensures most { AreBounded (A.arrival_count links.old) (A.arrival_count links.new) (A.call_count links.old) (A.call_count links.new) }
    ensures each { OnceEach (A.link_count links.old) (A.link_count links.new) (A.refusal_count links.old) (A.refusal_count links.new) }
    ensures ended { IfOk result (λ r. HasEnded (A.arrival_count links.old) (A.arrival_count links.new) (A.has_ended links.new) r) }
    // A link that refuses a call is closed: at each place refusals and open connections together
    // rise by no more than the links that begin there.
    ensures closes { IfOk result (λ r. EachCloses nobody (open_of r) (A.link_count links.old) (A.link_count links.new) (A.refusal_count links.old) (A.refusal_count links.new)) }
{
    let mut run = Run::new(alloc, opened, tree, plan)?;
    run.go_on(links)?;
    let _ = run.verdict(); // its contract says that the verdict is right
    Ok(run)
}
