//! The trail on its happy paths.

ghost use Rattle.dimacs.specs.logic.Literal.{IsWithin};

use crate::inputs::literal_of;
use dimacs::Lit;
use std::process::Abort;
use std::test::Fail;
use watches::{Assigned, Status, Trail, Truth, test_clause};

/// What happens to a trail, or is to be seen of it.
#[derive(Clone, Copy)]
enum Turn {
    /// A literal comes, with its level and reason.
    Pushes(i32, u32, Option<u64>),
    Cuts(u32),
    /// So many literals are on it, up to this level.
    Has(usize, u32),
    /// What a literal is.
    Is(i32, Truth),
    /// A literal that is true has this level and reason.
    Stands(i32, u32, Option<u64>),
}

fn expect_within(rt: &impl Abort, trail: &Trail, literal: Lit)
    ensures { IsWithin trail.now.vars literal }
{
    let number = literal.var().number();
    let vars = trail.vars();
    assert!(rt; number <= vars);
}

fn value_of(rt: &impl Abort, trail: &Trail, literal: Lit) -> Truth {
    expect_within(rt, trail, literal);
    trail.value(literal)
}

fn push(rt: &impl Abort, trail: &mut Trail, entry: Assigned) {
    expect_within(rt, trail, entry.literal);
    let level = trail.level();
    assert!(rt; level <= entry.level);
    match trail.value(entry.literal) {
        Truth::Free => trail.push(entry),
        _ => panic!(rt; "the literal has a value"),
    }
}

fn entry_of(rt: &impl Abort, trail: &Trail, literal: Lit) -> Assigned {
    expect_within(rt, trail, literal);
    match trail.value(literal) {
        Truth::True => trail.entry_of(literal),
        _ => panic!(rt; "the literal is not true"),
    }
}

/// A literal that is true has this level and reason.
fn stands(rt: &impl Abort, trail: &Trail, literal: Lit, level: u32, reason: Option<u64>) {
    let wanted = Assigned {
        literal,
        level,
        reason,
    };
    assert_eq!(rt; entry_of(rt, trail, literal), wanted);
}

/// So many literals are on the trail, up to this level.
fn has(rt: &impl Abort, trail: &Trail, count: usize, level: u32) {
    assert_eq!(rt; (trail.len(), trail.level()), (count, level));
}

fn is(rt: &impl Abort, trail: &Trail, literal: Lit, truth: Truth) {
    assert_eq!(rt; value_of(rt, trail, literal), truth);
}

fn play_turn(rt: &impl Abort, trail: &mut Trail, turn: Turn) {
    match turn {
        Turn::Pushes(number, level, reason) => {
            let literal = literal_of(rt, number);
            let entry = Assigned {
                literal,
                level,
                reason,
            };
            push(rt, trail, entry);
        }
        Turn::Cuts(level) => trail.cut(level),
        Turn::Has(count, level) => has(rt, trail, count, level),
        Turn::Is(number, truth) => is(rt, trail, literal_of(rt, number), truth),
        Turn::Stands(number, level, reason) => {
            stands(rt, trail, literal_of(rt, number), level, reason);
        }
    }
}

fn play(rt: &impl Abort, trail: &mut Trail, turns: &[Turn]) {
    for turn in turns {
        play_turn(rt, trail, *turn);
    }
}

const PUSHED: &[Turn] = &[
    Turn::Has(0, 0),
    Turn::Is(-2, Truth::Free),
    Turn::Pushes(-2, 1, None),
    Turn::Is(-2, Truth::True),
    Turn::Is(2, Truth::False),
    Turn::Is(1, Truth::Free),
    Turn::Has(1, 1),
];

const CUT: &[Turn] = &[
    Turn::Pushes(4, 0, Some(7)),
    Turn::Pushes(-1, 1, None),
    Turn::Pushes(-3, 1, Some(9)),
    Turn::Stands(-3, 1, Some(9)),
    Turn::Stands(4, 0, Some(7)),
    Turn::Stands(-1, 1, None),
    Turn::Pushes(2, 2, None),
    Turn::Has(4, 2),
    Turn::Cuts(1),
    Turn::Has(3, 1),
    Turn::Is(2, Truth::Free),
    Turn::Is(-2, Truth::Free),
    Turn::Is(3, Truth::False),
    Turn::Cuts(0),
    Turn::Has(1, 0),
    Turn::Stands(4, 0, Some(7)),
    Turn::Is(-1, Truth::Free),
];

#[test]
fn literals_come_are_found_and_are_cut_above_a_level(rt: HostRuntime) -> Result<(), Fail> {
    for turns in [PUSHED, CUT] {
        let mut trail = Trail::new(rt.alloc(), 4)?;
        assert_eq!(rt; trail.vars(), 4);
        play(&rt, &mut trail, turns);
    }
    Ok(())
}

const DECIDED: &[Turn] = &[Turn::Pushes(-1, 1, None), Turn::Pushes(2, 2, None)];

/// What a clause is under a trail, with the literal of a unit.
#[derive(Clone, Copy)]
enum Told {
    False,
    Unit(i32),
    Other,
}

fn status_of(rt: &impl Abort, told: Told) -> Status {
    match told {
        Told::False => Status::False,
        Told::Unit(number) => Status::Unit(literal_of(rt, number)),
        Told::Other => Status::Other,
    }
}

/// Three literals under a trail; two of them may be one.
fn found(rt: &impl Abort, trail: &Trail, clause: [i32; 3]) -> Status {
    let [first, second, third] = clause;
    let first = literal_of(rt, first);
    let second = literal_of(rt, second);
    let third = literal_of(rt, third);
    expect_within(rt, trail, first);
    expect_within(rt, trail, second);
    expect_within(rt, trail, third);
    test_clause(&[first, second, third], trail)
}

/// Three literals, and what is told of them.
const CLAUSES: &[([i32; 3], Told)] = &[
    ([1, -2, 1], Told::False),
    ([1, 3, 1], Told::Unit(3)),
    ([3, 1, 3], Told::Unit(3)),
    ([1, 2, 1], Told::Other),
    ([3, -4, 1], Told::Other),
];

#[test]
fn a_clause_is_false_unit_or_neither(rt: HostRuntime) {
    let mut trail = Trail::new(rt.alloc(), 4).expect(&rt, "memory");
    play(&rt, &mut trail, DECIDED);
    for (clause, want) in CLAUSES {
        let status = status_of(&rt, *want);
        assert!(&rt; found(&rt, &trail, *clause) == status);
    }
}
