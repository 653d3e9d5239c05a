//! Defined variables: which pairs they stand for, and what a base with them has.

ghost use Rattle.std.specs.Prelude.{◌≤◌};

use crate::inputs::{FOUR, literal_of};
use cube_split::{Chooser, preamble_with};
use dimacs::{Base, Formula, Lit, read};
use std::alloc::Global;
use std::process::Abort;

/// The literals of the pairs that are defined, by their numbers.
fn pairs(rt: &impl Abort, alloc: Global, input: &[u8], defs: u32) -> Vec<i32>
    requires { defs ≤ 64 }
{
    let formula = read(alloc, input).expect(rt, "a formula");
    let made = preamble_with(alloc, &formula, defs).expect(rt, "memory");
    let mut numbers = Vec::new(alloc);
    for pair in made.pairs() {
        numbers.push(pair.first.number()).expect(rt, "memory");
        numbers.push(pair.second.number()).expect(rt, "memory");
    }
    numbers
}

/// A formula, how many pairs are wanted, and their literals.
type Row = (&'static [u8], u32, &'static [i32]);

const ROWS: [Row; 6] = [
    (FOUR, 0, &[]),
    (FOUR, 1, &[1, 2]),
    (FOUR, 64, &[1, 2, 1, -2, -1, 2, -1, -2]),
    (b"p cnf 2 2\n1 -2 0\n-1 2 0\n", 1, &[1, -2]),
    // A clause counts once, and only a short one.
    (
        b"p cnf 3 4\n2 1 2 1 0\n3 -1 0\n-1 3 0\n-2 -3 0\n",
        3,
        &[-1, 3, 1, 2, -2, -3],
    ),
    (
        b"p cnf 4 3\n1 2 3 4 0\n-1 -2 0\n-3 -4 0\n",
        64,
        &[-1, -2, -3, -4],
    ),
];

#[test]
fn ties_go_to_the_lower_variables_and_the_positive_literals(rt: HostRuntime) {
    for (input, defs, want) in &ROWS {
        assert!(&rt; *defs <= 64);
        assert_eq!(&rt; pairs(&rt, rt.alloc(), *input, *defs).as_slice(), *want);
    }
}

/// The clauses of a base from a place on, with a 0 behind each.
fn clauses_from(rt: &impl Abort, alloc: Global, base: &Base, place: usize) -> Vec<i32> {
    let mut numbers = Vec::new(alloc);
    for i in place..base.len() {
        for literal in base.clause(i) {
            numbers.push(literal.number()).expect(rt, "memory");
        }
        numbers.push(0).expect(rt, "memory");
    }
    numbers
}

#[test]
fn a_base_has_three_clauses_for_a_definition(rt: HostRuntime) {
    let formula = read(rt.alloc(), FOUR).expect(&rt, "a formula");
    let made = preamble_with(rt.alloc(), &formula, 1).expect(&rt, "memory");
    let base = made.base(rt.alloc(), &formula).expect(&rt, "memory");
    assert_eq!(rt; base.vars(), 3);
    let clauses = clauses_from(&rt, rt.alloc(), &base, 4);
    assert_eq!(rt;
        clauses.as_slice(),
        [3, -1, -2, 0, -3, 1, 0, -3, 2, 0].as_slice()
    );
}

/// The variable that is chosen for a cube over definitions, 0 where there is none.
fn chosen(rt: &impl Abort, alloc: Global, formula: &Formula, defs: u32, cube: &[Lit]) -> u32
    requires { defs ≤ 64 }
{
    let made = preamble_with(alloc, formula, defs).expect(rt, "memory");
    let vars = formula.vars() + made.pairs().len() as u32;
    let mut chooser = Chooser::reserve(alloc, vars).expect(rt, "memory");
    match chooser.choose(formula, &made, cube) {
        Some(var) => var.number(),
        None => 0,
    }
}

/// How many pairs are defined, literals that hold, and the variable that is chosen.
const CHOICES: [(u32, &'static [i32], u32); 5] = [
    (1, &[], 3),
    (0, &[], 1),
    // With the defined variable both of its literals hold, and no clause is open.
    (1, &[3], 0),
    (1, &[-3], 1),
    (1, &[1], 2),
];

fn literals_of(rt: &impl Abort, alloc: Global, numbers: &[i32]) -> Vec<Lit> {
    let mut literals = Vec::new(alloc);
    for number in numbers {
        literals.push(literal_of(rt, *number)).expect(rt, "memory");
    }
    literals
}

#[test]
fn a_defined_variable_is_chosen_first_while_nothing_is_known_of_it(rt: HostRuntime) {
    let formula = read(rt.alloc(), FOUR).expect(&rt, "a formula");
    for (defs, numbers, want) in &CHOICES {
        assert!(&rt; *defs <= 64);
        let cube = literals_of(&rt, rt.alloc(), *numbers);
        assert_eq!(&rt; chosen(&rt, rt.alloc(), &formula, *defs, &cube), *want);
    }
}
