//! A receipt in memory.

ghost use Rattle.std.specs.Prelude.{◌≡◌};

use crate::head::Head;
use crate::lemma::ClosingLemma;

/// What is said of a log that was checked: the digest of the formula's text, the digest of the log's bytes, how many lemmas and bytes the
/// log has, and the lemmas that close leaves.
#[derive(Drop)]
pub struct Receipt {
    /// What the receipt's first five lines say.
    pub(crate) head: Head,
    /// The lemmas that close leaves, in the order of their lines.
    pub(crate) closing: Vec<ClosingLemma>,
}

impl Receipt {
    /// The lemmas that close leaves, in the order of their lines. A receipt of a log has them by rising numbers.
    pub fn closing(&self) -> &[ClosingLemma]
        ensures { result.now ≡ self.now.closing.items }
    {
        &self.closing
    }
}
