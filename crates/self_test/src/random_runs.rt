//! Plays random runs of `serve` with workers in memory, and counts wrong answers and refusals.

ghost use Rattle.std.specs.Prelude.{◌≤◌};

mod peer;
mod random_links;

use crate::formulas::FOUR;
use dimacs::read;
use links::CountedArrivals;
use node_main::{Options, USUAL, run_serve_arrivals};
use random_links::RandomLinks;
use std::alloc::{AllocError, Global};
use std::io;
use std::io::Write;
use std::rt::Runtime;

/// How many runs are played of each formula.
const RUNS: u64 = 400;

/// A formula, its name, and the exit status that is right for it.
struct Known {
    name: &'static str,
    text: &'static [u8],
    status: u8,
}

/// Four pigeons in three holes.
const PIGEONS: &[u8] =
    b"p cnf 12 22\n1 2 3 0\n4 5 6 0\n7 8 9 0\n10 11 12 0\n-1 -4 0\n-1 -7 0\n-1 -10 0\n-4 -7 0\n-4 -10 0\n-7 -10 0\n-2 -5 0\n-2 -8 0\n-2 -11 0\n-5 -8 0\n-5 -11 0\n-8 -11 0\n-3 -6 0\n-3 -9 0\n-3 -12 0\n-6 -9 0\n-6 -12 0\n-9 -12 0\n";

/// Three pigeons in three holes.
const ROOM: &[u8] =
    b"p cnf 9 12\n1 2 3 0\n4 5 6 0\n7 8 9 0\n-1 -4 0\n-1 -7 0\n-4 -7 0\n-2 -5 0\n-2 -8 0\n-5 -8 0\n-3 -6 0\n-3 -9 0\n-6 -9 0\n";

/// The formulas that are solved, with the exit status that is right for each: 10 if satisfiable, 20
/// if not.
const FORMULAS: [Known; 3] = [
    Known {
        name: "four clauses",
        text: FOUR,
        status: 20,
    },
    Known {
        name: "four pigeons",
        text: PIGEONS,
        status: 20,
    },
    Known {
        name: "three pigeons",
        text: ROOM,
        status: 10,
    },
];

/// The counts of some runs.
#[derive(Clone, Copy)]
struct Tally {
    decided: u64,
    wrong: u64,
    refused: u64,
}

/// The options of a run: three workers.
const OPTIONS: Options = Options {
    workers: 3,
    depth: 2,
    ..USUAL
};

/// Plays a run over these links. Answers its exit status, and how many links were hung up before the verdict was handed out.
fn serve_run(
    alloc: Global,
    text: &[u8],
    links: &mut CountedArrivals<RandomLinks>,
) -> Result<(u8, u64), AllocError> {
    let mut service = run_serve_arrivals(alloc, text, None, &OPTIONS, links)?;
    let hung_up = links.carrier().hung_up();
    service.hand_out(links)?;
    Ok((service.status(), hung_up))
}

/// Plays the run of a seed. In every fourth run nothing goes wrong.
fn play(alloc: Global, known: &Known, seed: u64, tally: &mut Tally) -> Result<(), AllocError> {
    let Ok(formula) = read(alloc, known.text) else {
        return Ok(());
    };
    let disorder = seed % 4 * 500;
    let carrier = RandomLinks::new(alloc, &formula, seed, disorder)?;
    let mut links = CountedArrivals::new(carrier);
    let (status, hung_up) = serve_run(alloc, known.text, &mut links)?;
    let refused = links.carrier().refused().saturating_add(hung_up);
    tally.refused = tally.refused.saturating_add(refused);
    if status == known.status {
        tally.decided = tally.decided.saturating_add(1);
    } else if status != 0 {
        tally.wrong = tally.wrong.saturating_add(1);
    }
    Ok(())
}

/// Plays the runs of all seeds for a formula, and counts how they end.
fn play_all(alloc: Global, known: &Known) -> Result<Tally, AllocError> {
    let mut tally = Tally {
        decided: 0,
        wrong: 0,
        refused: 0,
    };
    for seed in 0..RUNS {
        play(alloc, known, seed, &mut tally)?;
    }
    Ok(tally)
}

/// Plays the runs of each formula, and prints the counts.
pub(crate) fn play_formulas<R: Runtime + AllocGlobal>(rt: &R) -> io::Result<()> {
    for known in &FORMULAS {
        let Tally {
            decided,
            wrong,
            refused,
        } = play_all(rt.alloc(), known)?;
        let name = known.name;
        println!(rt; "{name}: of {RUNS} runs {decided} decided, {wrong} wrong, {refused} refused")?;
    }
    Ok(())
}
