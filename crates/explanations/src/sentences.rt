//! Pairs of sentences: one on what is wrong, and one on what to do.

ghost use Rattle.std.specs.Prelude.{◌≡◌, IsSomeAnd};

/// What to do if memory was refused.
pub(crate) const MEMORY: &str =
    "Give the process more memory (`ulimit -v`, the limit of the job or of the container).";

/// A sentence on what is wrong, and one on what to do. `FILE` in them stands for the file that has the fault, and `NEW` for one that a
/// command writes.
#[derive(Clone, Copy)]
pub struct Told {
    /// What is wrong.
    pub sentence: &'static str,
    /// What to do.
    pub remedy: &'static str,
}

/// Makes a row of a table: a sentence on what is wrong, and one on what to do.
pub(crate) fn row(sentence: &'static str, remedy: &'static str) -> Option<Told>
    ensures { IsSomeAnd result (λ t. (t.sentence.now ≡ sentence.now) × (t.remedy.now ≡ remedy.now)) }
{
    Some(Told { sentence, remedy })
}
