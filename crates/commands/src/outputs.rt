//! The two outputs of a session: the proof of its answers, and the answers.

ghost use Rattle.std.specs.Prelude.{◌≡◌, ◌++◌, ◌∷◌, ℕ, List, [], IfErr, IsTrue, OnErr, OnOk, false};
ghost use Rattle.commands.specs.Refusals.{IsRefusedAs};
ghost use Rattle.commands.specs.SessionMoments.{Moment, moment};

use reports::Refusal;

/// The two outputs of a session. Only an implementation states what the operating system does, by the ghost relations.
pub trait Outputs {
    // `has outputs proof moments`: the proof has these bytes, and at these moments, in order, their texts were printed
    ghost has: { Self → List ℕ → List Moment → Type 0 } = { λ _ _ _. Unit {0} };
    // the text that was printed last was not printed whole
    ghost unheard: { Self → Type 0 } = { λ _. Unit {0} };
    // the bytes that were last handed to the proof were not all written
    ghost unwritten: { Self → Type 0 } = { λ _. Unit {0} };

    /// Appends bytes to the proof's file. An error says that not all of them were written.
    fn prove(&mut self, bytes: &[u8]) -> Result<(), Refusal>
        ensures proved { OnOk result ((proof : List ℕ) (moments : List Moment) → has self.old proof moments → has self.new (proof ++ bytes.now) moments) }
        ensures some { OnErr result ((proof : List ℕ) (moments : List Moment) → has self.old proof moments → (written : List ℕ) × has self.new (proof ++ written) moments) }
        ensures refused { IfErr result (IsRefusedAs Refusal.Writing) }
        ensures unwritten { IfErr result (λ f. f ≡ Refusal.Writing → unwritten self.new) };

    /// Prints a text and flushes; false says that not all of it was printed.
    fn print(&mut self, text: &[u8]) -> bool
        ensures printed { IsTrue result → (proof : List ℕ) (moments : List Moment) → has self.old proof moments → has self.new proof (moments ++ moment text.now proof ∷ []) }
        ensures some { result ≡ false → (proof : List ℕ) (moments : List Moment) → has self.old proof moments
            → (front : List ℕ) × (rest : List ℕ) × (text.now ≡ front ++ rest) × has self.new proof (moments ++ moment front proof ∷ []) }
        ensures unheard { result ≡ false → unheard self.new };
}
