//! Clusters of nodes under every schedule: each verdict is right, and no two nodes of one formula hold verdicts that differ.
//!
//! What a layer above may rest on: under every list of events at the nodes of an [`OpenCluster`], added clauses among them, each verdict
//! is right for, and true of, the formula that its node has then, and nodes of one formula, each at its own moment, agree. In a
//! [`ClosedCluster`], whose nodes get only frames that they have sent, no reaction is a refusal.
#![tactic(auto)]

mod bytes;
mod closed;
mod event;
mod laws;
mod members;
mod node;
mod open;
mod schedule;

pub use bytes::Bytes;
pub use closed::ClosedCluster;
pub use event::OpenEvent;
pub use laws::verdicts_agree;
pub use node::Node;
pub use open::OpenCluster;
