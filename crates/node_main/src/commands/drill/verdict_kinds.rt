//! The kinds of the verdicts that the nodes of a cluster hold: assignments and proofs.

ghost use Rattle.std.specs.Prelude.{◌≡◌, length, Some, false};
ghost use Rattle.honest_cluster.specs.ClosedSchedule.{verdict_at};
ghost use Rattle.node_main.specs.DrillSchedule.{Holds};
ghost use Rattle.node_main.specs.inner.VerdictKinds.{AreKinds, are_at_odds, joined};

use cluster::ClosedCluster;
use lrat_check::Verdict;

/// Which kinds there are among some verdicts. Two verdicts differ if and only if one is an assignment and the other a proof.
#[derive(Clone, Copy)]
pub(crate) struct Kinds {
    /// Whether one of the verdicts is an assignment.
    pub(crate) assignment: bool,
    /// Whether one of the verdicts is a proof.
    pub(crate) proof: bool,
}

impl Kinds {
    /// The kinds among no verdict.
    pub(crate) fn none() -> Kinds
        ensures { result ≡ record { assignment = false; proof = false } }
    {
        Kinds {
            assignment: false,
            proof: false,
        }
    }

    /// The kinds that occur among these verdicts or those of `other`.
    pub(crate) fn and(self, other: Kinds) -> Kinds
        ensures { result ≡ joined self other }
    {
        Kinds {
            assignment: self.assignment || other.assignment,
            proof: self.proof || other.proof,
        }
    }

    /// Tells whether two verdicts differ: one is an assignment and the other a proof.
    pub(crate) fn are_at_odds(self, other: Kinds) -> bool
        ensures { result ≡ are_at_odds self other }
    {
        self.assignment && other.proof || self.proof && other.assignment
    }
}

/// The kind of the verdict that a node holds; none if it holds none or there is no such node.
fn kind_at(cluster: &ClosedCluster, node: usize) -> Kinds
    ensures { AreKinds result (λ v. verdict_at cluster.now node ≡ Some v) }
{
    match cluster.verdict(node) {
        Some(Verdict::Model(_)) => Kinds {
            assignment: true,
            proof: false,
        },
        Some(Verdict::Proof(_)) => Kinds {
            assignment: false,
            proof: true,
        },
        _ => Kinds::none(),
    }
}

/// The kinds of the verdicts that the nodes 0 to 3, those of a cluster of three workers, hold.
pub(crate) fn kinds_of(cluster: &ClosedCluster) -> Kinds
    requires { length cluster.now.workers ≡ 3 }
    ensures { AreKinds result (Holds cluster.now) }
{
    let mut kinds = Kinds::none();
    for node in 0..4 {
        kinds = kinds.and(kind_at(cluster, node));
    }
    kinds
}
