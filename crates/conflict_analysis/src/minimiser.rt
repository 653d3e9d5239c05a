//! Recursive minimisation of lemmas: a literal is removable if it follows from the others (Sörensson and Biere 2009).

ghost use Rattle.std.specs.Prelude.{◌≡◌, ◌<◌, length, OnOk};
ghost use Rattle.clause_arena.specs.Clauses.{live_of};
ghost use Rattle.dimacs.specs.logic.Literal.{IsWithin};
ghost use Rattle.conflict_analysis.specs.BuiltTrails.{AreInside};
ghost use Rattle.conflict_analysis.specs.inner.Minimiser.{HasRoom};

use crate::seen::{Seen, clear, make_room};
use clause_arena::Arena;
use dimacs::{Lit, Var};
use std::alloc::{AllocError, Global};
use watches::{Trail, Truth};

/// What is known of a literal of a reason, before its own reason is read.
enum Removability {
    /// The literal was met, is false at level 0, or follows from such literals.
    Removable,
    /// The literal does not follow from such literals, as far as chains of bounded length show.
    Poison,
    /// The literal follows if the other literals of its reason, the clause of this number, do.
    Open(u64),
}

/// Tests whether an entry follows, by its reason, from entries that the analysis has met. Answers are cached until the next analysis
/// begins. They stay right as the analysis goes on, since what it meets later follows from what it met before.
///
/// An answer is a stamp in a table by variable, `removable` or `poison`. New stamps invalidate all answers at once.
#[derive(Drop)]
pub(crate) struct Minimiser {
    /// By variable: the stamp `removable` or `poison` if there is an answer, else an older stamp.
    pub(crate) answers: Vec<u32>,
    /// The stamp of a variable whose entry is removable.
    pub(crate) removable: u32,
    /// The stamp of a variable whose entry is not removable.
    pub(crate) poison: u32,
}

impl Minimiser {
    /// A minimiser without answers and without room for variables.
    pub(crate) fn new(alloc: Global) -> Minimiser {
        Minimiser {
            answers: Vec::new(alloc),
            removable: 0,
            poison: 0,
        }
    }

    /// Invalidates the cached answers of the last conflict, by two fresh stamps, and makes room for
    /// the variables from 1 to `vars`.
    pub(crate) fn begin(&mut self, vars: u32) -> Result<(), AllocError>
        ensures { OnOk result (HasRoom vars self.new) }
    {
        make_room(&mut self.answers, vars as usize + 1)?;
        if self.poison >= u32::MAX - 1 {
            clear(&mut self.answers);
            self.poison = 0;
        }
        self.removable = self.poison + 1;
        self.poison = self.removable + 1;
        Ok(())
    }

    /// Whether each literal of the live clause of this number follows from literals that were `met`, by chains of at most `depth` reasons.
    pub(crate) fn follows(
        &mut self,
        arena: &Arena,
        trail: &Trail,
        met: &Seen,
        number: u64,
        depth: u32,
    ) -> bool
        requires inside { AreInside (live_of arena.now) trail.now.vars }
        requires met { trail.now.vars < length met.now }
        requires room { HasRoom trail.now.vars self.old }
        ensures room { HasRoom trail.now.vars self.new }
    {
        if depth == 0 {
            return false;
        }
        match arena.find(number) {
            Some(at) => {
                for &literal in arena.clause(at) {
                    match self.removability(trail, met, literal) {
                        Removability::Removable => {}
                        Removability::Poison => return false,
                        Removability::Open(reason) => {
                            let removable = self.follows(arena, trail, met, reason, depth - 1);
                            self.note(literal.var(), removable);
                            if !removable {
                                return false;
                            }
                        }
                    }
                }
                true
            }
            None => false,
        }
    }

    /// What is known of a literal of a reason. A literal that is not false is the one that the reason implied.
    fn removability(&self, trail: &Trail, met: &Seen, literal: Lit) -> Removability
        requires within { IsWithin trail.now.vars literal }
        requires met { trail.now.vars < length met.now }
        requires room { HasRoom trail.now.vars self.now }
    {
        let var = literal.var();
        if met.has(var) {
            return Removability::Removable;
        }
        let answer = self.answers[var.number() as usize];
        if answer == self.removable {
            return Removability::Removable;
        }
        if answer == self.poison {
            return Removability::Poison;
        }
        match trail.value(literal) {
            Truth::False => {}
            _ => return Removability::Removable,
        }
        let entry = trail.entry_of(literal.negate());
        if entry.level == 0 {
            return Removability::Removable;
        }
        match entry.reason {
            Some(number) => Removability::Open(number),
            None => Removability::Poison,
        }
    }

    /// Caches whether the entry of this variable is removable, so that it is tried once a conflict.
    fn note(&mut self, var: Var, removable: bool)
        requires { var < length self.old.answers.items }
        ensures { length self.new.answers.items ≡ length self.old.answers.items }
    {
        self.answers[var.number() as usize] = if removable {
            self.removable
        } else {
            self.poison
        };
    }
}
