//! A cluster under an open schedule: any events in any order, with any bytes delivered.

ghost use Rattle.std.specs.Prelude.{◌≡◌, slice_get, option_copied, option_map};
ghost use Rattle.cluster.specs.Agreement.{Agree, AgreeOnMore};
ghost use Rattle.cluster.specs.Formulas.{FormulasAlong, formulas_after_event};
ghost use Rattle.cluster.specs.Nodes.{AreSound, AreRight, AreTrue, formulas, verdict_of};
ghost use Rattle.cluster.specs.OpenSchedule.{ChangesNothing, Happens, Runs};

use crate::event::OpenEvent;
use crate::laws::verdicts_agree;
use crate::node::Node;
use lrat_check::{Reaction, Verdict};
use std::alloc::Global;
use std::marker::Model;

impl Drop for OpenCluster {
    fn drop(self) {
        let OpenCluster { alloc: _, nodes: _ } = self;
    }
}

/// Plays one event at one of these nodes, and answers the node's reaction; `Ignored` if there is no such node.
fn happen(alloc: Global, nodes: &mut Vec<Node>, event: &OpenEvent) -> Reaction
    ensures happens { Happens nodes.old.items event.now result nodes.new.items }
    ensures sound { AreSound nodes.old.items → AreSound nodes.new.items }
{
    let place = event.node();
    if place >= nodes.len() {
        return Reaction::Ignored;
    }
    nodes[place].react(alloc, event)
}

/// Nodes at which events happen, one at a time.
pub struct OpenCluster {
    /// The allocator of the frames that are delivered.
    alloc: Global,
    /// The nodes, numbered from 0.
    nodes: Vec<Node>,
}

impl Model for OpenCluster {
    ghost use Rattle.std.specs.Prelude.{List};
    ghost use Rattle.cluster.specs.declared.node.Node.{Node};
    ghost use Rattle.cluster.specs.Nodes.{AreSound};

    ghost Value = { List Node };

    ghost view = { λ c. c.nodes.items };

    ghost invariant = { λ c. AreSound c.nodes.items };
}

impl OpenCluster {
    /// A cluster of these nodes, numbered from 0. Frames that are delivered take memory from `alloc`.
    pub fn new(alloc: Global, nodes: Vec<Node>) -> OpenCluster
        ensures holds { result ≡ nodes.items }
        ensures sound { AreSound result }
    {
        // `verdict` ensures that a node is sound, so that after the loop all of them are.
        for node in &nodes {
            let _ = node.verdict();
        }
        OpenCluster { alloc, nodes }
    }

    /// Plays one event, and answers the reaction of its node. The verdicts after it are right for the formulas that the nodes have then,
    /// and agree with the verdicts before it on the same formulas. An event whose reaction is `NoMemory` changes nothing.
    pub fn step(&mut self, event: &OpenEvent) -> Reaction
        ensures happens { Happens self.old event.now result self.new }
        ensures nothing { ChangesNothing result self.old self.new }
        ensures formulas { formulas self.new ≡ formulas_after_event event.now result (formulas self.old) }
        ensures right { AreRight self.new }
        ensures truth { AreTrue self.new }
        ensures agree { Agree self.old self.new }
        ensures grown { AgreeOnMore self.old self.new }
        ensures sound { AreSound self.new }
    {
        verdicts_agree();
        happen(self.alloc, &mut self.nodes, event)
    }

    /// Plays the events one after the other. An event whose reaction is `NoMemory` changes nothing and is passed over. That is possible for
    /// a delivery whose bytes begin with a complete payload that has literals or a chunk, and for any event if the node's own rules allow
    /// it.
    pub fn run(&mut self, events: &[OpenEvent])
        ensures runs { Runs self.old events.now self.new }
        ensures formulas { FormulasAlong (formulas self.old) events.now (formulas self.new) }
        ensures right { AreRight self.new }
        ensures truth { AreTrue self.new }
        ensures agree { Agree self.old self.new }
        ensures grown { AgreeOnMore self.old self.new }
        ensures sound { AreSound self.new }
    {
        verdicts_agree();
        for event in events {
            let _ = happen(self.alloc, &mut self.nodes, event);
        }
    }

    /// The verdict that a node holds; `None` if there is no such node. The call takes no memory.
    pub fn verdict(&self, node: usize) -> Option<&Verdict>
        ensures holds { option_copied result ≡ option_map verdict_of (slice_get self.now node) }
        ensures sound { AreSound self.now }
    {
        Some(self.nodes.get(node)?.verdict())
    }
}
