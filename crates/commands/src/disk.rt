//! Files by their paths.

ghost use Rattle.std.specs.Prelude.{◌≡◌, ℕ, List, Option, Some, None, IfOk, IfErr, IfSome};
ghost use Rattle.commands.specs.Refusals.{IsRefusedAs};

use crate::piece_reader::Pieces;
use reports::Refusal;
use std::alloc::Global;
use std::io::Read;

/// Files that are read, by their paths. Only an implementation states what the operating system does, by the ghost function `holds`.
pub trait Disk {
    /// A file that was opened for reading.
    type Source: Read + Drop;

    // the bytes of the file to which a path leads, if they are known
    ghost holds: { Self → List ℕ → Option (List ℕ) } = { λ _ _. None };

    /// Answers the allocator for what is read.
    fn alloc(&self) -> Global;

    /// Opens the file at a path, to be read from its first byte. The error is out of memory, or else `refusal`, which is also the refusal
    /// of each later read that fails.
    fn open(&self, path: &str, refusal: Refusal) -> Result<Pieces<Self::Source>, Refusal>
        ensures bytes { IfOk result (λ p. IfSome (holds self.now path.now) (λ bytes. Self.Source.remaining p.source ≡ Some bytes)) }
        ensures refusal { IfOk result (λ p. p.refusal ≡ refusal) }
        ensures refused { IfErr result (IsRefusedAs refusal) };
}
