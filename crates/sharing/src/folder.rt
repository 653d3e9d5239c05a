//! The folder of a cell, as one of its workers sees it.

ghost use Rattle.std.specs.Prelude.{◌≡◌, ◌++◌, ℕ, List, OnErr, OnOk};

use reports::Refusal;

/// The files of a cell. Only an implementation states what the operating system does, by the ghost relation.
pub trait Folder {
    // `has_logged folder bytes`: this worker's log has these bytes
    ghost has_logged: { Self → List ℕ → Type 0 } = { λ _ _. Unit {0} };

    /// Looks for another worker whose offers stand in the folder, after the `known` ones that were found before: they keep their order.
    /// Appends its name to `name` and answers true, or false if there is none.
    fn find(&mut self, known: usize, name: &mut Vec<u8>) -> Result<bool, Refusal>
        ensures logged { (log : List ℕ) → has_logged self.old log → has_logged self.new log };

    /// Appends to `room` what the offers of worker number `peer`, counted from 0 in the order of `find`, have after their first `from`
    /// bytes, or as much of it as is read at once. What cannot be read is read later.
    fn read(&mut self, peer: usize, from: u64, room: &mut Vec<u8>) -> Result<(), Refusal>
        ensures logged { (log : List ℕ) → has_logged self.old log → has_logged self.new log };

    /// Appends bytes to this worker's log. An error says that not all of them were written.
    fn log(&mut self, bytes: &[u8]) -> Result<(), Refusal>
        ensures logged { OnOk result ((log : List ℕ) → has_logged self.old log → has_logged self.new (log ++ bytes.now)) }
        ensures some { OnErr result ((log : List ℕ) → has_logged self.old log → (front : List ℕ) × (rest : List ℕ) × (bytes.now ≡ front ++ rest) × has_logged self.new (log ++ front)) };

    /// Appends bytes to this worker's offers. An error says that not all of them were written.
    fn offer(&mut self, bytes: &[u8]) -> Result<(), Refusal>
        ensures logged { (log : List ℕ) → has_logged self.old log → has_logged self.new log };
}

/// To whom a worker tells which leaves are closed. Only an implementation states what the operating system does, by the ghost relation.
pub trait Teller {
    // `has_told teller text`: this text was told
    ghost has_told: { Self → List ℕ → Type 0 } = { λ _ _. Unit {0} };

    /// Tells lines. An error says that not all of them were told.
    fn tell(&mut self, lines: &[u8]) -> Result<(), Refusal>
        ensures told { OnOk result ((text : List ℕ) → has_told self.old text → has_told self.new (text ++ lines.now)) };
}
