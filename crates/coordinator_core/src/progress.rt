//! The progress of a coordinator: counts of leaves and jobs.

ghost use Rattle.std.specs.Prelude.{◌≡◌, count_by, is_some, length};
ghost use Rattle.coordinator_core.specs.Progress.{is_closed};

use crate::coordinator::Coordinator;

/// Counts the slots with a value.
fn some_in<T>(slots: &[Option<T>]) -> usize
    ensures { result ≡ count_by (λ slot. is_some slot) slots.now }
{
    slots.iter().filter(|slot| slot.is_some()).count()
}

impl Coordinator {
    /// Returns the number of leaves of the present tree.
    pub fn leaf_count(&self) -> usize
        ensures { result ≡ length self.now.tree }
    {
        self.tree.leaves()
    }

    /// Returns the number of leaves of the tree that the coordinator was made with.
    pub fn initial_leaf_count(&self) -> usize
        ensures { result ≡ length self.now.initial_tree }
    {
        self.initial_tree.leaves()
    }

    /// Returns the number of closed leaves.
    pub fn closed_count(&self) -> usize
        ensures { result ≡ count_by is_closed self.now.leaves }
    {
        self.leaves.closed()
    }

    /// Returns the number of workers with a job.
    pub fn job_count(&self) -> usize
        ensures { result ≡ count_by (λ job. is_some job) self.now.jobs }
    {
        some_in(&self.jobs)
    }
}
