//! Files that are written: they are begun, appended to, and then kept or removed.

ghost use Rattle.std.specs.Prelude.{◌≡◌, ◌++◌, ℕ, Bool, false, List, [], IfOk, IfErr, IfSome, IsTrue, OnOk};
ghost use Rattle.commands.specs.Refusals.{IsRefusedAs};
ghost use Rattle.commands.specs.Written.{IsLeft};

use crate::disk::Disk;
use reports::Refusal;

/// Where a text goes, and in which form.
#[derive(Clone, Copy)]
pub struct Target<'a> {
    /// The path of the file.
    pub path: &'a str,
    /// Whether the text, which is a proof, is converted to binary form.
    pub binary: bool,
}

/// How a file is written.
#[derive(Clone, Copy, Debug, PartialEq, Eq)]
pub enum Way {
    /// A temporary file beside it, renamed once it is whole.
    Beside,
    /// What is at the path is written itself, if it is no regular file: a device or a pipe.
    InPlace,
}

/// Files that are written, by their paths. Only an implementation states what the operating system does, by the ghost relations.
pub trait Drafts: Disk {
    /// An unfinished file. It has no `Drop`: each ends by a call of `keep` or `remove`.
    type Draft;

    // `made draft path bytes`: the unfinished file is for this path, and was given these bytes
    ghost made: { Self.Draft → List ℕ → List ℕ → Type 0 } = { λ _ _ _. Unit {0} };

    // `kept old new path bytes`: by what was done from the disk `old` to the disk `new`, the file at this path has these bytes
    ghost kept: { Self → Self → List ℕ → List ℕ → Type 0 } = { λ _ _ _ _. Unit {0} };

    // `apart disk path other`: the two paths lead to two different files
    ghost apart: { Self → List ℕ → List ℕ → Type 0 } = { λ _ _ _. Unit {0} };

    /// Whether two paths lead to the same file; if one of them leads to no file yet, whether the paths are equal.
    fn is_same(&self, path: &str, other: &str) -> bool
        ensures { result ≡ false → apart self.now path.now other.now };

    /// Errs if no text can be written to a path, as far as this can be told before there is one: no temporary file can be made beside it,
    /// and a regular file is there, or nothing.
    fn test(&self, path: &str) -> Result<(), Refusal>
        ensures refused { IfErr result (IsRefusedAs Refusal.Writing) };

    /// Creates a file that is to be written to a path in the given way; `None` if it cannot be created so.
    fn begin(&self, path: &str, way: Way) -> Result<Option<Self::Draft>, Refusal>
        ensures begun { IfOk result (λ found. IfSome found (λ draft. made draft path.now [])) }
        ensures refused { IfErr result (IsRefusedAs Refusal.Writing) };

    /// Appends bytes to an unfinished file.
    fn append(&self, draft: &mut Self::Draft, bytes: &[u8]) -> Result<(), Refusal>
        ensures written { OnOk result ((path before : List ℕ) → made draft.old path before → made draft.new path (before ++ bytes.now)) }
        ensures refused { IfErr result (IsRefusedAs Refusal.Writing) };

    /// Whether a path leads to an unfinished file: to the temporary file, or to the path
    /// at which it will be put.
    fn leads_to(&self, draft: &Self::Draft, path: &str) -> bool;

    /// Puts a written file at its path; a temporary file is renamed. Answers false, and removes the
    /// file, if it cannot be renamed.
    fn keep(&mut self, draft: Self::Draft) -> Result<bool, Refusal>
        ensures kept { IfOk result (λ b. IsTrue b → (path bytes : List ℕ) → made draft path bytes → kept self.old self.new path bytes) }
        ensures left { IsLeft self.old self.new result }
        ensures refused { IfErr result (IsRefusedAs Refusal.Writing) };

    /// Gives up an unfinished file: a temporary file is removed.
    fn remove(&self, draft: Self::Draft);
}
