//! Propagators on their happy paths, by their law alone.

ghost use Rattle.std.specs.Prelude.{◌≡◌, ℕ, ◌+◌, ◌<◌, ◌≤◌, [], ◌∷◌, ◌++◌, All, Contains, OnOk, length};
ghost use Rattle.dimacs.specs.logic.Literal.{IsWithin};

use crate::inputs::literal_of;
use clause_arena::Arena;
use dimacs::Lit;
use std::alloc::{AllocError, Global};
use std::process::Abort;
use watches::{Assigned, Propagator, Scan, Trail, Truth, Watched, add_clause};

/// What happens to a propagator, or is to be seen of it.
#[derive(Clone, Copy)]
enum Turn {
    /// A literal is decided, at a level of its own.
    Decides(i32),
    /// It propagates, and names a false clause or none.
    Propagates(bool),
    /// It goes back to a level.
    Undoes(u32),
    /// So many literals are on the trail, up to this level.
    Has(usize, u32),
    /// What a literal is.
    Is(i32, Truth),
    /// The last literal, of level 1, and the clause that it follows by.
    Ends(i32, u64),
}

fn expect_within(rt: &impl Abort, literal: Lit, vars: u32)
    ensures { IsWithin vars literal }
{
    let number = literal.var().number();
    assert!(rt; number <= vars);
}

fn truth_of(rt: &impl Abort, trail: &Trail, literal: Lit) -> Truth {
    expect_within(rt, literal, trail.vars());
    trail.value(literal)
}

/// Learns two literals as a clause.
fn learn_pair<P: Propagator>(
    rt: &impl Abort,
    propagator: &mut P,
    arena: &mut Arena,
    trail: &Trail,
    number: u64,
    first: Lit,
    second: Lit,
) -> Result<(), AllocError>
    requires ready { P.is_ready propagator.old arena.old trail.now }
    requires below { All (λ n. n < number) (P.attached propagator.old) }
    requires number { number < 100 }
    ensures ready { P.is_ready propagator.new arena.new trail.now }
    ensures ok { OnOk result (P.attached propagator.new ≡ P.attached propagator.old ++ number ∷ []) }
{
    expect_within(rt, first, trail.vars());
    expect_within(rt, second, trail.vars());
    let row = first.index();
    let other = second.index();
    assert!(rt; row != other);
    match arena.find(number) {
        None => add_clause(propagator, arena, trail, number, &[first, second]),
        Some(_) => panic!(rt; "{number} is live"),
    }
}

/// Learns each pair of literals as a clause, numbered from 1.
fn load<P: Propagator>(
    rt: &impl Abort,
    propagator: &mut P,
    arena: &mut Arena,
    trail: &Trail,
    clauses: &[[i32; 2]],
) -> Result<(), AllocError>
    requires ready { P.is_ready propagator.old arena.old trail.now }
    requires none { P.attached propagator.old ≡ [] }
    ensures ready { P.is_ready propagator.new arena.new trail.now }
    ensures there { OnOk result ((n : ℕ) → 0 < n → n ≤ length clauses.now → Contains (P.attached propagator.new) n) }
{
    let mut number = 1;
    for &[first, second] in clauses {
        assert!(rt; number < 100);
        let first = literal_of(rt, first);
        let second = literal_of(rt, second);
        learn_pair(rt, propagator, arena, trail, number, first, second)?;
        number += 1;
    }
    Ok(())
}

/// Opens a level with a literal.
fn decide<P: Propagator>(
    rt: &impl Abort,
    propagator: &P,
    arena: &Arena,
    trail: &mut Trail,
    literal: Lit,
)
    requires { P.is_ready propagator.now arena.now trail.old }
    ensures { P.is_ready propagator.now arena.now trail.new }
{
    let _ = (propagator, arena);
    expect_within(rt, literal, trail.vars());
    let level = trail.level();
    assert!(rt; level < 100);
    match trail.value(literal) {
        Truth::Free => trail.push(Assigned {
            literal,
            level: level + 1,
            reason: None,
        }),
        _ => panic!(rt; "the literal has a value"),
    }
}

/// Takes a clause out of propagator and arena.
fn forget<P: Propagator>(
    rt: &impl Abort,
    propagator: &mut P,
    arena: &mut Arena,
    trail: &Trail,
    number: u64,
)
    requires ready { P.is_ready propagator.old arena.old trail.now }
    requires there { Contains (P.attached propagator.old) number }
    ensures { P.is_ready propagator.new arena.new trail.now }
{
    let _ = trail;
    match arena.find(number) {
        Some(at) => {
            propagator.detach(arena, at);
            arena.remove(at);
        }
        None => panic!(rt; "{number} is not live"),
    }
}

/// Closes the gaps of the arena. Answers how many clauses moved.
fn close_gaps<P: Propagator>(
    alloc: Global,
    propagator: &mut P,
    arena: &mut Arena,
    trail: &Trail,
) -> Result<usize, AllocError>
    requires { P.is_ready propagator.old arena.old trail.now }
    ensures { P.is_ready propagator.new arena.new trail.now }
{
    let _ = trail;
    let mut moves = Vec::new(alloc);
    match arena.compact(&mut moves) {
        Ok(()) => {
            propagator.moved(&moves);
            Ok(moves.len())
        }
        Err(error) => Err(error),
    }
}

/// Whether a literal is the last, of level 1 and by this clause.
fn is_last(trail: &Trail, literal: Lit, reason: u64) -> bool {
    let wanted = Assigned {
        literal,
        level: 1,
        reason: Some(reason),
    };
    trail.entries().last() == Some(&wanted)
}

fn propagate<P: Propagator>(
    rt: &impl Abort,
    propagator: &mut P,
    arena: &mut Arena,
    trail: &mut Trail,
    conflict: bool,
)
    requires { P.is_ready propagator.old arena.old trail.old }
    ensures { P.is_ready propagator.new arena.new trail.new }
{
    let found = propagator.propagate(arena, trail);
    assert_eq!(rt; found.is_some(), conflict);
}

fn has(rt: &impl Abort, trail: &Trail, count: usize, level: u32) {
    assert_eq!(rt; (trail.len(), trail.level()), (count, level));
}

fn is(rt: &impl Abort, trail: &Trail, literal: Lit, truth: Truth) {
    assert_eq!(rt; truth_of(rt, trail, literal), truth);
}

fn play_turn<P: Propagator>(
    rt: &impl Abort,
    propagator: &mut P,
    arena: &mut Arena,
    trail: &mut Trail,
    turn: Turn,
)
    requires { P.is_ready propagator.old arena.old trail.old }
    ensures { P.is_ready propagator.new arena.new trail.new }
{
    match turn {
        Turn::Decides(number) => decide(rt, propagator, arena, trail, literal_of(rt, number)),
        Turn::Propagates(conflict) => propagate(rt, propagator, arena, trail, conflict),
        Turn::Undoes(level) => propagator.undo(trail, level),
        Turn::Has(count, level) => has(rt, trail, count, level),
        Turn::Is(number, truth) => is(rt, trail, literal_of(rt, number), truth),
        Turn::Ends(number, reason) => assert!(rt; is_last(trail, literal_of(rt, number), reason)),
    }
}

fn play<P: Propagator>(
    rt: &impl Abort,
    propagator: &mut P,
    arena: &mut Arena,
    trail: &mut Trail,
    turns: &[Turn],
)
    requires { P.is_ready propagator.old arena.old trail.old }
    ensures { P.is_ready propagator.new arena.new trail.new }
{
    for turn in turns {
        play_turn(rt, propagator, arena, trail, *turn);
    }
}

/// Plays turns over clauses that were learnt.
fn follow<P: Propagator>(
    rt: &impl Abort,
    alloc: Global,
    propagator: &mut P,
    clauses: &[[i32; 2]],
    turns: &[Turn],
)
    requires { P.attached propagator.old ≡ [] }
{
    let mut trail = Trail::new(alloc, 4).expect(rt, "memory");
    let mut arena = Arena::new(alloc);
    propagator.reserve(4).expect(rt, "memory");
    load(rt, propagator, &mut arena, &trail, clauses).expect(rt, "memory");
    play(rt, propagator, &mut arena, &mut trail, turns);
}

/// The same once the first clause was forgotten, before and behind the closing of its gap.
fn follow_without_first<P: Propagator>(
    rt: &impl Abort,
    alloc: Global,
    propagator: &mut P,
    clauses: &[[i32; 2]],
    turns: &[Turn],
)
    requires { P.attached propagator.old ≡ [] }
{
    assert!(rt; clauses.len() >= 1);
    let mut trail = Trail::new(alloc, 4).expect(rt, "memory");
    let mut arena = Arena::new(alloc);
    propagator.reserve(4).expect(rt, "memory");
    load(rt, propagator, &mut arena, &trail, clauses).expect(rt, "memory");
    forget(rt, propagator, &mut arena, &trail, 1);
    play(rt, propagator, &mut arena, &mut trail, turns);
    let moves = close_gaps(alloc, propagator, &mut arena, &trail).expect(rt, "memory");
    assert_eq!(rt; moves, clauses.len() - 1);
    play(rt, propagator, &mut arena, &mut trail, turns);
}

const CHAIN: [[i32; 2]; 3] = [[-3, 4], [-2, 3], [-1, 2]];

const FOLLOWED: &[Turn] = &[
    Turn::Propagates(false),
    Turn::Has(0, 0),
    Turn::Decides(1),
    Turn::Propagates(false),
    Turn::Has(4, 1),
    Turn::Is(4, Truth::True),
    Turn::Ends(4, 1),
];

/// Follows the chain, and once more with the propagator that has given its room back.
fn follow_chain<P: Propagator>(rt: &impl Abort, alloc: Global, propagator: &mut P)
    requires { P.attached propagator.old ≡ [] }
{
    follow(rt, alloc, propagator, &CHAIN, FOLLOWED);
    propagator.release();
    follow(rt, alloc, propagator, &CHAIN, FOLLOWED);
}

#[test]
fn a_chain_of_units_is_followed_backwards(rt: HostRuntime) {
    let a = rt.alloc();
    follow_chain(&rt, a, &mut Scan::new(a));
    follow_chain(&rt, a, &mut Watched::new(a));
}

const CONFLICT: [[i32; 2]; 3] = [[-1, 2], [-1, -2], [3, 4]];

const NAMED: &[Turn] = &[
    Turn::Decides(-3),
    Turn::Propagates(false),
    Turn::Decides(1),
    Turn::Propagates(true),
    Turn::Has(4, 2),
    Turn::Undoes(1),
    Turn::Has(2, 1),
    Turn::Is(1, Truth::Free),
    Turn::Decides(-1),
    Turn::Propagates(false),
    Turn::Has(3, 2),
];

#[test]
fn a_false_clause_is_named(rt: HostRuntime) {
    let a = rt.alloc();
    follow(&rt, a, &mut Scan::new(a), &CONFLICT, NAMED);
    follow(&rt, a, &mut Watched::new(a), &CONFLICT, NAMED);
}

const IMPLIED: [[i32; 2]; 3] = [[-2, 4], [-1, 2], [-1, 3]];

/// The first clause implies nothing, the others what they did before they moved.
const FOUND: &[Turn] = &[
    Turn::Decides(1),
    Turn::Propagates(false),
    Turn::Has(3, 1),
    Turn::Is(2, Truth::True),
    Turn::Is(3, Truth::True),
    Turn::Is(4, Truth::Free),
    Turn::Undoes(0),
];

#[test]
fn a_detached_clause_implies_nothing_and_one_that_moved_is_found(rt: HostRuntime) {
    let a = rt.alloc();
    follow_without_first(&rt, a, &mut Scan::new(a), &IMPLIED, FOUND);
    follow_without_first(&rt, a, &mut Watched::new(a), &IMPLIED, FOUND);
}
