//! Drills: closed schedules that are drawn.

ghost use Rattle.std.specs.Prelude.{◌≤◌, IfOk};
ghost use Rattle.node_main.specs.DrillSchedule.{IsNew};

use crate::check::same;
use cluster::ClosedCluster;
use cube_split::tree;
use dimacs::{Formula, read};
use frames::{encode, len};
use honest_cluster::ClosedEvent;
use node_main::{draw, drill, run_drill};
use std::alloc::{AllocError, Global};
use std::process::Abort;

const FOUR: &[u8] = b"p cnf 2 4\n1 2 0\n-1 2 0\n1 -2 0\n-1 -2 0\n";

const EIGHT: &[u8] =
    b"p cnf 3 8\n1 2 3 0\n1 2 -3 0\n1 -2 3 0\n1 -2 -3 0\n-1 2 3 0\n-1 2 -3 0\n-1 -2 3 0\n-1 -2 -3 0\n";

const RING: &[u8] = b"p cnf 3 3\n1 2 0\n-2 3 0\n-1 -3 0\n";

const UNITS: &[u8] = b"p cnf 2 2\n1 0\n-2 0\n";

const QUIET: &[u8] = b"c turns 1000 refused 0 disagreements 0\n";

/// The first words of the seed 0, as other implementations of xoshiro256++ have them.
const WORDS: [[u64; 3]; 3] = [
    [
        5987356902031041503,
        7051070477665621255,
        6633766593972829180,
    ],
    [211316841551650330, 9136120204379184874, 379361710973160858],
    [
        15813423377499357806,
        15596884590815070553,
        5439680534584881407,
    ],
];

/// The cluster that a drill of a formula begins with.
fn cluster_of(alloc: Global, formula: &Formula) -> Result<ClosedCluster, AllocError>
    requires { formula.now.vars ≤ 1000000 }
    ensures { IfOk result (IsNew 3) }
{
    let _ = formula.vars();
    let tree = tree(alloc, formula, 2)?;
    let cluster = ClosedCluster::new(alloc, formula, tree, 1000, 3)?;
    Ok(cluster)
}

/// The event of a turn, once more.
fn event_of(words: &[u64; 3], frames: usize, next: u64) -> Option<ClosedEvent> {
    let [a, b, c] = *words;
    let node = (c & 3) as usize;
    let kind = a & 15;
    if kind >= 15 {
        return (b & 15 == 0).then_some(ClosedEvent::Restart { node, number: next });
    }
    if kind >= 9 {
        let worker = (b % 3) as u32 + 1;
        return Some(ClosedEvent::Poll { node, worker });
    }
    if kind >= 6 {
        return Some(ClosedEvent::Work { node });
    }
    if frames == 0 {
        return None;
    }
    let place = (b % frames as u64) as usize;
    Some(ClosedEvent::Deliver { node, place })
}

/// Plays the turns one by one.
fn play(cluster: &mut ClosedCluster, turns: &[[u64; 3]]) {
    let mut next = 5u64;
    for words in turns {
        if let Some(event) = event_of(words, cluster.frames().len(), next) {
            if matches!(event, ClosedEvent::Restart { .. }) {
                next = next.saturating_add(1);
            }
            let _ = cluster.step(&event);
        }
    }
}

/// All frames of a cluster, spelled one after the other.
fn frames_of(rt: &impl Abort, alloc: Global, cluster: &ClosedCluster) -> Vec<u8> {
    let mut text = Vec::new(alloc);
    for frame in cluster.frames() {
        let mut bytes = vec![in alloc; 0; len(frame)].expect(rt, "memory");
        encode(frame, &mut bytes);
        text.extend_from_slice(&bytes).expect(rt, "memory");
    }
    text
}

/// A drill of seed 7 and a thousand turns prints this, with this status.
fn is_reported(rt: &impl Abort, alloc: Global, input: &[u8], want: &[u8], status: u8) {
    let report = drill(alloc, input, 7, 1000).expect(rt, "memory");
    same(
        rt,
        (report.stdout.as_slice(), report.status),
        (want, status),
    );
}

#[test]
fn a_drill_prints_how_many_turns_it_took(rt: HostRuntime) {
    is_reported(&rt, rt.alloc(), FOUR, QUIET, 0);
    let faulty = b"p cnf 1000001 0\n";
    is_reported(&rt, rt.alloc(), faulty, b"c input line 1 fault 8\n", 1);
    let words = draw(rt.alloc(), 0, 3).expect(&rt, "memory");
    assert!(rt; words.as_slice() == WORDS.as_slice());
}

/// A drill of a formula by these words ends as the turns do that are played one by one.
fn plays_its_turns(rt: &impl Abort, alloc: Global, formula: &Formula, words: &[[u64; 3]]) {
    assert!(rt; formula.vars() <= 1_000_000);
    let mut drilled = cluster_of(alloc, formula).expect(rt, "memory");
    let report = run_drill(alloc, &mut drilled, words).expect(rt, "memory");
    assert!(rt; report.stdout.as_slice() == QUIET && report.status == 0);
    let mut played = cluster_of(alloc, formula).expect(rt, "memory");
    play(&mut played, words);
    let frames = frames_of(rt, alloc, &played);
    assert!(rt; frames_of(rt, alloc, &drilled) == frames);
}

#[test]
fn a_drill_plays_the_turns_that_its_words_name(rt: HostRuntime) {
    for input in [FOUR, EIGHT, RING, UNITS] {
        let formula = read(rt.alloc(), input).expect(&rt, "a formula");
        for seed in 1..21 {
            let words = draw(rt.alloc(), seed, 1000).expect(&rt, "memory");
            plays_its_turns(&rt, rt.alloc(), &formula, &words);
        }
    }
}
