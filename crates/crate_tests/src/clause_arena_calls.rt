//! The clauses of a solver: each call, clauses without literals, numbers far from the others, and the closing of gaps.

ghost use Rattle.std.specs.Prelude.{◌≡◌, ◌+◌, ◌≤◌, ◌<◌, List, [], ◌∷◌};
ghost use Rattle.std.specs.List.{IsDistinct};
ghost use Rattle.dimacs.specs.logic.Literal.{Literal, Pos, Neg, same};
ghost use Rattle.clause_arena.specs.Clauses.{IsLive};

use crate::inputs::literal_of;
use clause_arena::{Arena, Ref};
use dimacs::{Lit, Var};
use std::alloc::{AllocError, Global};
use std::process::Abort;

/// The greatest number that a proof can name.
const FAR: u64 = 0xffff_ffff_ffff;

/// Three literals of variables that follow each other, the one in the middle negated.
fn three(first: u32) -> [Lit; 3]
    requires low { 1 ≤ first }
    requires high { first < 10000 }
    ensures literals { result ≡ Pos first ∷ Neg (first + 1) ∷ Pos (first + 2) ∷ [] }
    ensures distinct { IsDistinct same result }
{
    [
        Lit::positive(Var::new(first)),
        Lit::negative(Var::new(first + 1)),
        Lit::positive(Var::new(first + 2)),
    ]
}

/// Adds a clause under a number that must be free.
fn add(rt: &impl Abort, arena: &mut Arena, number: u64, literals: &[Lit]) -> Result<Ref, AllocError>
    requires { IsDistinct same literals.now }
{
    match arena.find(number) {
        None => arena.add(number, literals),
        Some(_) => panic!(rt; "the number is live"),
    }
}

/// Where a clause stands that must be live.
fn find(rt: &impl Abort, arena: &Arena, number: u64) -> Ref
    ensures { IsLive arena.now result }
{
    match arena.find(number) {
        Some(at) => at,
        None => panic!(rt; "the number is not live"),
    }
}

/// The clause of a number must have these literals.
fn expect(rt: &impl Abort, arena: &Arena, number: u64, wanted: [i32; 3]) {
    let [first, second, third] = wanted;
    let literals = [
        literal_of(rt, first),
        literal_of(rt, second),
        literal_of(rt, third),
    ];
    let at = find(rt, arena, number);
    assert!(rt; at.number() == number && arena.clause(at) == literals.as_slice());
}

fn remove(rt: &impl Abort, arena: &mut Arena, number: u64) {
    let at = find(rt, arena, number);
    arena.remove(at);
}

fn swap(rt: &impl Abort, arena: &mut Arena, number: u64, i: usize, j: usize) {
    let at = find(rt, arena, number);
    let len = arena.clause(at).len();
    assert!(rt; i < len && j < len);
    arena.swap(at, i, j);
}

/// What happens to an arena, or is to be seen of it.
#[derive(Clone, Copy)]
enum Turn {
    /// Three literals come under a number, from a variable on.
    Adds(u64, u32),
    Removes(u64),
    /// Two literals of a clause change places.
    Swaps(u64, usize, usize),
    /// A clause has these literals.
    Is(u64, [i32; 3]),
    Lacks(u64),
}

fn play_turn(rt: &impl Abort, arena: &mut Arena, turn: Turn) {
    match turn {
        Turn::Adds(number, first) => {
            assert!(rt; first >= 1 && first < 10000);
            add(rt, arena, number, &three(first)).expect(rt, "memory");
        }
        Turn::Removes(number) => remove(rt, arena, number),
        Turn::Swaps(number, i, j) => swap(rt, arena, number, i, j),
        Turn::Is(number, literals) => expect(rt, arena, number, literals),
        Turn::Lacks(number) => assert!(rt; arena.find(number).is_none()),
    }
}

fn play(rt: &impl Abort, arena: &mut Arena, turns: &[Turn]) {
    for turn in turns {
        play_turn(rt, arena, *turn);
    }
}

const GREAT_NUMBERS: &[Turn] = &[
    Turn::Adds(FAR, 5),
    Turn::Adds(u64::MAX, 9),
    Turn::Adds(0, 1),
    Turn::Adds(1_000_000, 3),
    Turn::Is(FAR, [5, -6, 7]),
    Turn::Is(u64::MAX, [9, -10, 11]),
    Turn::Is(0, [1, -2, 3]),
    Turn::Is(1_000_000, [3, -4, 5]),
    Turn::Lacks(FAR - 1),
    Turn::Lacks(u64::MAX - 1),
    Turn::Removes(FAR),
    Turn::Lacks(FAR),
    Turn::Is(u64::MAX, [9, -10, 11]),
];

const SWAPPED: &[Turn] = &[
    Turn::Adds(1, 1),
    Turn::Adds(2, 4),
    Turn::Adds(3, 7),
    Turn::Swaps(2, 0, 2),
    Turn::Is(2, [6, -5, 4]),
    Turn::Swaps(2, 1, 1),
    Turn::Is(2, [6, -5, 4]),
    Turn::Is(1, [1, -2, 3]),
    Turn::Is(3, [7, -8, 9]),
];

#[test]
fn clauses_have_great_numbers_and_their_literals_change_places(rt: HostRuntime) {
    for turns in [GREAT_NUMBERS, SWAPPED] {
        play(&rt, &mut Arena::new(rt.alloc()), turns);
    }
}

/// The clause of a number has moved.
fn has_moved(arena: &Arena, number: u64, from: Ref, to: Ref) -> bool {
    from.number() == number && from != to && arena.find(number) == Some(to)
}

/// The gaps are closed, and the clauses of these numbers move.
fn expect_moves(rt: &impl Abort, alloc: Global, arena: &mut Arena, numbers: &[u64]) {
    let mut moved = Vec::new(alloc);
    arena.compact(&mut moved).expect(rt, "memory");
    assert_eq!(rt; moved.len(), numbers.len());
    for i in 0..moved.len() {
        let (from, to) = moved[i];
        assert!(rt; i < numbers.len() && has_moved(arena, numbers[i], from, to));
    }
}

const WITH_GAPS: &[Turn] = &[
    Turn::Adds(FAR, 50),
    Turn::Adds(1, 1),
    Turn::Adds(2, 2),
    Turn::Adds(3, 3),
    Turn::Adds(4, 4),
    Turn::Adds(5, 5),
    Turn::Adds(6, 6),
    Turn::Removes(2),
    Turn::Removes(4),
];

const CLOSED: &[Turn] = &[
    Turn::Is(1, [1, -2, 3]),
    Turn::Is(3, [3, -4, 5]),
    Turn::Is(5, [5, -6, 7]),
    Turn::Is(6, [6, -7, 8]),
    Turn::Is(FAR, [50, -51, 52]),
    Turn::Lacks(2),
];

#[test]
fn closing_gaps_tells_each_clause_that_moved(rt: HostRuntime) {
    let mut arena = Arena::new(rt.alloc());
    play(&rt, &mut arena, WITH_GAPS);
    expect_moves(&rt, rt.alloc(), &mut arena, &[1, 3, 5, 6, FAR]);
    play(&rt, &mut arena, CLOSED);
}

/// A third of the clauses goes.
fn thin(rt: &impl Abort, arena: &mut Arena) {
    for number in 1..2000 {
        if number % 3 == 0 {
            remove(rt, arena, number);
        }
    }
}

#[test]
fn many_clauses_come_and_go(rt: HostRuntime) {
    let mut arena = Arena::new(rt.alloc());
    let mut moved = Vec::new(rt.alloc());
    for number in 1..2000 {
        play_turn(&rt, &mut arena, Turn::Adds(number, number as u32));
    }
    thin(&rt, &mut arena);
    arena.compact(&mut moved).expect(&rt, "memory");
    assert_eq!(rt; moved.len(), 1331);
    for number in 1..2000 {
        let first = number as i32;
        let turn = if number % 3 == 0 {
            Turn::Lacks(number)
        } else {
            Turn::Is(number, [first, -(first + 1), first + 2])
        };
        play_turn(&rt, &mut arena, turn);
    }
}
