//! Assignments, and whether they satisfy a formula.

ghost use Rattle.std.specs.Prelude.{◌≡◌, ℕ, ◌-◌, ◌<◌, ◌≤◌, ◌↔◌, IsTrue, List, Bool, length, true, All};
ghost use Rattle.dimacs.specs.logic.Cnf.{Sat, assignment_of};
ghost use Rattle.dimacs.specs.logic.Literal.{literal_true, IsTrueIn, IsWithin};

use crate::formula::Formula;
use crate::literal::Lit;
use std::marker::Model;

/// A truth value for each variable, that of variable 1 first.
#[derive(Drop)]
pub struct Assignment {
    /// The values, of which the first is that of variable 1.
    values: Vec<bool>,
}

impl Model for Assignment {
    ghost Value = { List Bool };

    ghost view = { λ a. a.values.items };
}

impl Assignment {
    /// The assignment of these values, of which the first is that of variable 1.
    pub fn new(values: Vec<bool>) -> Assignment
        ensures { result ≡ values.items }
    {
        Assignment { values }
    }

    /// Answers the number of variables that have a value.
    pub fn len(&self) -> usize
        ensures { result ≡ length self.now }
    {
        self.values.len()
    }

    /// Lends the values, of which the first is that of variable 1.
    pub fn values(&self) -> &[bool]
        ensures { result.now ≡ self.now }
    {
        &self.values
    }

    /// Answers whether a literal is true. Its variable must have a value.
    pub fn holds(&self, literal: Lit) -> bool
        requires { IsWithin (length self.now) literal }
        ensures { result ≡ literal_true (assignment_of self.now) literal }
    {
        let value = self.values[literal.var().number() as usize - 1];
        value != literal.is_negative()
    }
}

/// Answers whether a clause has a true literal.
fn clause_holds(assignment: &Assignment, clause: &[Lit]) -> bool
    requires { All (IsWithin (length assignment.now)) clause.now }
    ensures { IsTrue result ↔ IsTrueIn (assignment_of assignment.now) clause.now }
{
    for literal in clause {
        if assignment.holds(*literal) {
            return true;
        }
    }
    false
}

/// Answers whether the assignment satisfies the formula: each clause has a true literal. The assignment has one value for each variable. It
/// allocates nothing.
pub fn satisfies(assignment: &Assignment, formula: &Formula) -> bool
    requires { length assignment.now ≡ formula.now.vars }
    ensures { IsTrue result ↔ Sat (assignment_of assignment.now) formula.now }
{
    for i in 0..formula.len() {
        if !clause_holds(assignment, formula.clause(i)) {
            return false;
        }
    }
    true
}
