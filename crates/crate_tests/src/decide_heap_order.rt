//! The order in which variables are decided: worked examples, and a long run beside a plain list that is searched.

ghost use Rattle.std.specs.Prelude.{◌≡◌, ◌≤◌};

use decide_heap::DecideHeap;
use dimacs::Var;
use std::alloc::{AllocError, Global};
use std::process::Abort;
use std::test::Fail;

fn var(rt: &impl Abort, number: u32) -> Var
    ensures { result ≤ 20 }
{
    assert!(rt; number >= 1 && number <= 20);
    Var::new(number)
}

/// What happens to a heap of twenty variables, and 0 for none that is taken out.
#[derive(Clone, Copy)]
enum Turn {
    Inserts(u32),
    Bumps(u32),
    Halves,
    Takes(u32),
}

fn number_of(taken: Option<Var>) -> u32 {
    match taken {
        Some(var) => var.number(),
        None => 0,
    }
}

fn play_turn(rt: &impl Abort, heap: &mut DecideHeap, turn: Turn)
    requires { heap.old.vars ≡ 20 }
    ensures { heap.new.vars ≡ 20 }
{
    match turn {
        Turn::Inserts(number) => heap.insert(var(rt, number)),
        Turn::Bumps(number) => heap.bump(var(rt, number)),
        Turn::Halves => heap.halve(),
        Turn::Takes(number) => assert_eq!(rt; number_of(heap.pop_best()), number),
    }
}

fn play(rt: &impl Abort, heap: &mut DecideHeap, turns: &[Turn])
    requires { heap.old.vars ≡ 20 }
{
    for turn in turns {
        play_turn(rt, heap, *turn);
    }
}

const BUMPED: &[Turn] = &[
    Turn::Inserts(1),
    Turn::Inserts(2),
    Turn::Inserts(3),
    Turn::Bumps(3),
    Turn::Bumps(2),
    Turn::Takes(2),
    Turn::Takes(3),
    Turn::Takes(1),
    Turn::Takes(0),
];

const HALVED: &[Turn] = &[
    Turn::Inserts(1),
    Turn::Inserts(2),
    Turn::Bumps(1),
    Turn::Bumps(1),
    Turn::Bumps(2),
    Turn::Bumps(2),
    Turn::Bumps(2),
    Turn::Halves,
    Turn::Takes(1),
    Turn::Takes(2),
];

/// A tie, also one behind a halving, goes to the lower variable.
#[test]
fn the_greatest_score_comes_first(rt: HostRuntime) -> Result<(), Fail> {
    for turns in [BUMPED, HALVED] {
        let mut heap = DecideHeap::new(rt.alloc());
        heap.reserve(20)?;
        play(&rt, &mut heap, turns);
    }
    Ok(())
}

/// A variable of the plain list.
#[derive(Clone, Copy)]
struct Entry {
    number: u32,
    score: u64,
    inside: bool,
}

fn list(alloc: Global) -> Result<Vec<Entry>, AllocError> {
    let mut entries = Vec::new(alloc);
    for number in 1..=20 {
        entries.push(Entry {
            number,
            score: 0,
            inside: false,
        })?;
    }
    Ok(entries)
}

/// The best that is in, found by a search from the first variable on.
fn best(entries: &[Entry]) -> Option<Entry> {
    let mut best: Option<Entry> = None;
    for entry in entries {
        let better = match best {
            Some(other) => entry.score > other.score,
            None => true,
        };
        if entry.inside && better {
            best = Some(*entry);
        }
    }
    best
}

fn set_inside(entries: &mut [Entry], number: u32, inside: bool) {
    for entry in entries.iter_mut() {
        if entry.number == number {
            entry.inside = inside;
        }
    }
}

fn bump(entries: &mut [Entry], number: u32) {
    for entry in entries.iter_mut() {
        if entry.number == number {
            entry.score = entry.score.saturating_add(1);
        }
    }
}

fn halve(entries: &mut [Entry]) {
    for entry in entries.iter_mut() {
        entry.score /= 2;
    }
}

/// One call at both, chosen by a number below 16; the answers must agree.
fn call(rt: &impl Abort, heap: &mut DecideHeap, entries: &mut [Entry], choice: u64, number: u32)
    requires vars { heap.old.vars ≡ 20 }
    requires low { 1 ≤ number }
    requires high { number ≤ 20 }
    ensures { heap.new.vars ≡ 20 }
{
    if choice == 0 {
        heap.halve();
        halve(entries);
    } else if choice < 8 {
        heap.bump(var(rt, number));
        bump(entries, number);
    } else if choice < 12 {
        heap.insert(var(rt, number));
        set_inside(entries, number, true);
    } else {
        let expected = best(entries);
        let found = heap.pop_best();
        match (found, expected) {
            (Some(found), Some(expected)) => {
                assert_eq!(rt; found.number(), expected.number);
                assert_eq!(rt; heap.score(found), expected.score);
                set_inside(entries, expected.number, false);
            }
            (None, None) => {}
            _ => assert!(rt; false, "one is empty"),
        }
    }
}

#[test]
fn a_long_run_agrees_with_a_list(rt: HostRuntime) -> Result<(), Fail> {
    let mut heap = DecideHeap::new(rt.alloc());
    heap.reserve(20)?;
    let mut entries = list(rt.alloc())?;
    let mut seed: u64 = 1;
    for _ in 0..10000 {
        seed = seed
            .wrapping_mul(6364136223846793005)
            .wrapping_add(1442695040888963407);
        let choice = (seed >> 60) % 16;
        let number = ((seed >> 32) % 20) as u32 + 1;
        call(&rt, &mut heap, &mut entries, choice, number);
    }
    Ok(())
}
