//! A candidate: an announced verdict whose bytes are received and not checked yet.

use evidence::Evidence;

/// A verdict that a coordinator announced in its session, with the bytes received so far.
#[derive(Drop)]
pub struct Candidate {
    pub session: u64,
    pub evidence: Evidence,
}
