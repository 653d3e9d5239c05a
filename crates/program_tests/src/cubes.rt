//! The split rule, and what `cubes` prints.

ghost use Rattle.std.specs.Prelude.{◌≤◌};

use crate::check::same;
use cube_split::{Chooser, grow, preamble, tree};
use dimacs::{Formula, Lit, Var, read};
use icnf::Tree;
use node_main::run_cubes;
use std::alloc::Global;
use std::process::Abort;

/// The four clauses over two variables, which nothing satisfies.
const FOUR: &[u8] = b"p cnf 2 4\n1 2 0\n-1 2 0\n1 -2 0\n-1 -2 0\n";

/// Three clauses in which each of three variables stands twice.
const RING: &[u8] = b"p cnf 3 3\n1 2 0\n-2 3 0\n-1 -3 0\n";

/// An input, how deep it is split, what is printed, and its status.
type Row = (&'static [u8], u32, &'static [u8], u8);

const ROWS: [Row; 4] = [
    // Cubes of depth 1 are the two branches.
    (
        FOUR,
        1,
        b"p inccnf\n1 2 0\n-1 2 0\n1 -2 0\n-1 -2 0\na 1 0\na -1 0\n",
        0,
    ),
    // An empty formula has one empty cube.
    (b"p cnf 0 0\n", 4, b"p inccnf\na 0\n", 0),
    // Cubes of a faulty input are its fault.
    (b"p cnf 2 2\n1 2 0\n-1", 4, b"c input line 3 fault 5\n", 1),
    // A leaf without a choice stays short.
    (
        RING,
        3,
        b"p inccnf\n1 2 0\n-2 3 0\n-1 -3 0\na 1 3 0\na 1 -3 2 0\na 1 -3 -2 0\na -1 2 3 0\na -1 2 -3 0\na -1 -2 0\n",
        0,
    ),
];

/// What is printed of an input that is split so deep, and the status.
fn is_printed(rt: &impl Abort, alloc: Global, input: &[u8], depth: u32, want: &[u8], status: u8)
    requires { depth ≤ 16 }
{
    let report = run_cubes(alloc, input, depth).expect(rt, "memory");
    same(
        rt,
        (report.stdout.as_slice(), report.status),
        (want, status),
    );
}

#[test]
fn cubes_are_printed_as_deep_as_there_is_a_choice(rt: HostRuntime) {
    for (input, depth, want, status) in &ROWS {
        assert!(&rt; *depth <= 16);
        is_printed(&rt, rt.alloc(), *input, *depth, *want, *status);
    }
}

/// The base has the units of pure literals alone, behind the formula.
#[test]
fn a_preamble_has_the_units_of_pure_literals_alone(rt: HostRuntime) {
    let formula = read(rt.alloc(), b"p cnf 2 2\n1 2 0\n1 -2 0\n").expect(&rt, "a formula");
    let made = preamble(rt.alloc(), &formula).expect(&rt, "memory");
    let units = [Lit::positive(Var::new(1))];
    assert!(rt; made.units() == units.as_slice());
    let base = made.base(rt.alloc(), &formula).expect(&rt, "memory");
    assert!(rt; base.len() == 3 && base.clause(2) == units.as_slice());
}

/// A leaf has the cube of one literal.
fn is_leaf(rt: &impl Abort, tree: &Tree, leaf: usize, literal: Lit) {
    assert!(rt; leaf < tree.leaves());
    assert_eq!(rt; tree.cube(leaf), [literal].as_slice());
}

#[test]
fn a_leaf_is_split_the_positive_branch_first(rt: HostRuntime) {
    let mut grown = Tree::leaf(rt.alloc()).expect(&rt, "memory");
    grow(&mut grown, 0, Var::new(2)).expect(&rt, "memory");
    assert_eq!(rt; grown.leaves(), 2);
    is_leaf(&rt, &grown, 0, Lit::positive(Var::new(2)));
    is_leaf(&rt, &grown, 1, Lit::negative(Var::new(2)));
}

/// The literals of these numbers.
fn cube_of(rt: &impl Abort, alloc: Global, numbers: &[i32]) -> Vec<Lit> {
    let mut cube = Vec::new(alloc);
    for number in numbers {
        let variable = number.unsigned_abs();
        assert!(rt; variable >= 1 && variable < 100);
        let positive = Lit::positive(Var::new(variable));
        let literal = if *number < 0 {
            positive.negate()
        } else {
            positive
        };
        cube.push(literal).expect(rt, "memory");
    }
    cube
}

/// The variable that is chosen for a cube, 0 where there is none.
fn chosen(rt: &impl Abort, alloc: Global, formula: &Formula, cube: &[Lit]) -> u32 {
    let made = preamble(alloc, formula).expect(rt, "memory");
    let mut chooser = Chooser::reserve(alloc, formula.vars()).expect(rt, "memory");
    match chooser.choose(formula, &made, cube) {
        Some(var) => var.number(),
        None => 0,
    }
}

/// A cube of the ring, and the variable that is chosen for it.
const CHOICES: &[(&'static [i32], u32)] = &[
    (&[], 1),
    (&[1], 3),
    (&[-1], 2),
    (&[1, 3], 0),
    (&[1, -3], 2),
];

#[test]
fn the_choice_is_the_variable_in_the_most_open_clauses(rt: HostRuntime) {
    let formula = read(rt.alloc(), RING).expect(&rt, "a formula");
    for (numbers, want) in CHOICES {
        let cube = cube_of(&rt, rt.alloc(), *numbers);
        assert_eq!(&rt; chosen(&rt, rt.alloc(), &formula, &cube), *want);
    }
}

/// Both trees have these leaves.
fn are_alike(rt: &impl Abort, tree: &Tree, other: &Tree, leaves: usize) {
    assert_eq!(rt; (tree.leaves(), other.leaves()), (leaves, leaves));
    for i in 0..leaves {
        assert_eq!(rt; tree.cube(i), other.cube(i));
    }
}

#[test]
fn what_cubes_prints_is_read_again(rt: HostRuntime) {
    let report = run_cubes(rt.alloc(), RING, 2).expect(&rt, "memory");
    let Ok((formula, found)) = icnf::read(rt.alloc(), report.stdout.as_slice()) else {
        panic!(&rt; "no iCNF text");
    };
    let made = tree(rt.alloc(), &formula, 2).expect(&rt, "memory");
    are_alike(&rt, &found, &made, 4);
}
