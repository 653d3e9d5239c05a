//! Ranges of leaf indices.

ghost use Rattle.std.specs.Prelude.{◌≡◌, ◌≤◌, ◌^◌};
ghost use Rattle.log_join.specs.inner.Trees.{left_of, right_of, whole};

/// The range `from..to` of leaf indices.
#[derive(Clone, Copy)]
pub(crate) struct Places {
    pub(crate) from: u32,
    pub(crate) to: u32,
}

/// Returns the range of all leaf indices: a tree has at most 65,536 leaves.
pub(crate) fn whole() -> Places
    ensures { result ≡ whole }
{
    Places {
        from: 0,
        to: 65_536,
    }
}

impl Places {
    /// Returns the part of the range before index `middle`.
    pub(crate) fn left(self, middle: u32) -> Places
        ensures { result ≡ left_of middle self }
    {
        Places {
            from: self.from,
            to: middle,
        }
    }

    /// Returns the part of the range from index `middle` on.
    pub(crate) fn right(self, middle: u32) -> Places
        ensures { result ≡ right_of middle self }
    {
        Places {
            from: middle,
            to: self.to,
        }
    }
}
