//! The Luby sequence of restarts (Luby, Sinclair and Zuckerman 1993).

ghost use Rattle.std.specs.Prelude.{◌≡◌, ◌+◌, ◌%◌, ◌^◌, ◌<◌, ◌≤◌, [], ◌∷◌, true, false};
ghost use Rattle.cube_solve.specs.inner.Luby.{next_term, restarted, restarts};

/// The schedule of restarts, by conflicts: they come after 100 times the terms of the sequence 1, 1, 2, 1, 1, 2, 4, .. Each number from 1
/// on gives the terms 1, 2, 4, .., one term more than the number can be halved.
#[derive(Drop)]
pub(crate) struct Luby {
    /// The number of calls of `count` so far, one for ten conflicts.
    conflicts: u64,
    /// The number of conflicts at the next restart.
    restart: u64,
    /// The number of the present term, from 1.
    number: u64,
    /// The number, halved for each of its terms except the first.
    rest: u64,
    /// The present term.
    term: u64,
}

impl Luby {
    /// A schedule before its first conflict.
    pub(crate) fn new() -> Luby
        ensures none { result.conflicts ≡ 0 }
        ensures first { restarts 7 result ≡ 100 ∷ 200 ∷ 400 ∷ 500 ∷ 600 ∷ 800 ∷ 1200 ∷ [] }
    {
        Luby {
            conflicts: 0,
            restart: 100,
            number: 1,
            rest: 1,
            term: 1,
        }
    }

    /// Counts ten conflicts of a stable phase as one: the modes call it at every tenth. So restarts
    /// come after 1,000 conflicts times the terms.
    pub(crate) fn count(&mut self)
        ensures { self.new ≡ record self.old { conflicts = (self.old.conflicts + 1) % 2 ^ 64 } }
    {
        self.conflicts = self.conflicts.wrapping_add(1);
    }

    /// Whether a restart is due. If it is, takes the next term and schedules the next restart.
    pub(crate) fn restarts(&mut self) -> bool
        ensures before { self.old.conflicts < self.old.restart → (result ≡ false) × (self.new ≡ self.old) }
        ensures then { self.old.restart ≤ self.old.conflicts → (result ≡ true) × (self.new ≡ restarted self.old) }
    {
        if self.conflicts < self.restart {
            return false;
        }
        self.advance();
        self.restart = self.conflicts.wrapping_add(self.term.wrapping_mul(100));
        true
    }

    /// Takes the next term: twice the last one, while the number can be halved; else 1, of the next
    /// number.
    fn advance(&mut self)
        ensures { self.new ≡ next_term self.old }
    {
        if self.rest % 2 == 0 {
            self.rest /= 2;
            self.term = self.term.wrapping_mul(2);
        } else {
            self.number = self.number.wrapping_add(1);
            self.rest = self.number;
            self.term = 1;
        }
    }
}
