//! What the runs over links report: of links that carry, that refuse, that end, and that hand in what nobody sent.

ghost use Rattle.std.specs.Prelude.{◌≤◌};
ghost use Rattle.command_line.specs.Options.{AreOptions};

use crate::check::{FOUR, VERIFIED, prints, same};
use dimacs::FormulaReader;
use links::{
    Bytewise, Carrier, Counted, End, LinkFault, Links, Memory, RefusesAll, RefusesAt, Script,
};
use node_main::{Options, Report, USUAL, run_serve, run_solve, run_solve_of, run_work};
use std::alloc::Global;
use std::process::Abort;

/// One worker, for a formula that is not split.
pub(crate) const ALONE: Options = Options {
    workers: 1,
    depth: 0,
    ..USUAL
};

/// Two workers, one for each leaf.
const TWO: Options = Options {
    workers: 2,
    depth: 1,
    ..ALONE
};

/// Two units, which `1 -2` alone satisfies.
const UNITS: &[u8] = b"p cnf 2 2\n1 0\n-2 0\n";

const UNITS_HOLD: &[u8] = b"s SATISFIABLE\nv 1 -2 0\n";

const REFUTED: &[u8] = b"s UNSATISFIABLE\n";

const UNKNOWN: &[u8] = b"s UNKNOWN\n";

/// Worker 1 of incarnation 1 has nothing to do.
const IDLE: &[u8] = b"CC\x08\0\x0c\0\0\0\x01\0\0\0\0\0\0\0\x01";

/// Session 1, job 1, with a limit of 100,000 and no literal.
const TASK: &[u8] = b"CC\x01\0\x18\0\0\0\0\0\0\0\x01\0\0\0\0\0\0\0\x01\0\0\0\0\0\x01\x86\xa0";

/// Session 1, job 1, worker 1, incarnation 1: an assignment of two bytes.
const DONE: &[u8] =
    b"CC\x02\0\x21\0\0\0\0\0\0\0\x01\0\0\0\0\0\0\0\x01\0\0\0\x01\0\0\0\0\0\0\0\x01\x02\0\0\0\x02";

/// The same, of no byte.
const DONE_WITHOUT: &[u8] =
    b"CC\x02\0\x21\0\0\0\0\0\0\0\x01\0\0\0\0\0\0\0\x01\0\0\0\x01\0\0\0\0\0\0\0\x01\x02\0\0\0\0";

/// What was found there, from its first byte on.
const FETCH: &[u8] =
    b"CC\x03\0\x20\0\0\0\0\0\0\0\x01\0\0\0\0\0\0\0\x01\0\0\0\x01\0\0\0\0\0\0\0\x01\0\0\0\0";

/// Both bytes of it.
const PIECE: &[u8] =
    b"CC\x04\0\x22\0\0\0\0\0\0\0\x01\0\0\0\0\0\0\0\x01\0\0\0\x01\0\0\0\0\0\0\0\x01\0\0\0\0\x01\0";

/// Session 1: an assignment of two bytes.
const VERDICT: &[u8] = b"CC\x05\0\x0d\0\0\0\0\0\0\0\x01\x02\0\0\0\x02";

/// Session 1: an assignment of no byte.
const VERDICT_WITHOUT: &[u8] = b"CC\x05\0\x0d\0\0\0\0\0\0\0\x01\x02\0\0\0\0";

/// Session 1: worker 1 wants it from its first byte on.
const WANT: &[u8] = b"CC\x06\0\x10\0\0\0\0\0\0\0\x01\0\0\0\x01\0\0\0\0";

/// Session 1: the two bytes of an assignment that satisfies the units.
const PART: &[u8] = b"CC\x07\0\x0f\0\0\0\0\0\0\0\x01\x02\0\0\0\0\x01\0";

/// Session 1: two bytes of one that does not.
const WRONG_PART: &[u8] = b"CC\x07\0\x0f\0\0\0\0\0\0\0\x01\x02\0\0\0\0\0\0";

/// Frames that are handed in, frames that are sent, and what is printed.
type Row = (
    &'static [&'static [u8]],
    &'static [&'static [u8]],
    &'static [u8],
);

/// Keeps what is sent, and hands it on.
#[derive(Drop)]
struct Kept<C> {
    carrier: C,
    sent: Vec<u8>,
}

impl<C: Carrier> Carrier for Kept<C> {
    fn carry(&mut self, from: End, bytes: &[u8]) -> Result<(), LinkFault> {
        if self.sent.extend_from_slice(bytes).is_err() {
            return Err(LinkFault);
        }
        self.carrier.carry(from, bytes)
    }

    fn fetch(&mut self, at: End, room: &mut [u8]) -> Result<usize, LinkFault> {
        self.carrier.fetch(at, room)
    }
}

/// The report of a run over memory.
pub(crate) fn solved(
    rt: &impl Abort,
    alloc: Global,
    input: &[u8],
    cubes: Option<&[u8]>,
    options: &Options,
) -> Report
    requires { AreOptions options.now }
{
    let mut links = Counted::new(Memory::new(alloc, options.workers).expect(rt, "memory"));
    run_solve(alloc, input, cubes, options, &mut links).expect(rt, "memory")
}

/// The same of an input that comes byte by byte.
fn solved_bytewise(rt: &impl Abort, alloc: Global, input: &[u8], options: &Options) -> Report
    requires { AreOptions options.now }
{
    let mut reader = FormulaReader::new(alloc);
    for byte in input {
        reader.feed(&[*byte]);
    }
    let mut links = Counted::new(Memory::new(alloc, options.workers).expect(rt, "memory"));
    run_solve_of(alloc, reader.finish(), None, options, &mut links).expect(rt, "memory")
}

/// The report of a run over memory, where one call is refused.
fn solved_but(
    rt: &impl Abort,
    alloc: Global,
    input: &[u8],
    options: &Options,
    number: u64,
) -> Report
    requires { AreOptions options.now }
{
    let carrier = RefusesAt {
        carrier: Memory::new(alloc, options.workers).expect(rt, "memory"),
        number,
    };
    run_solve(alloc, input, None, options, &mut Counted::new(carrier)).expect(rt, "memory")
}

/// The status that goes with what is printed.
fn status_of(text: &[u8]) -> u8 {
    if text == UNKNOWN {
        0
    } else if text == REFUTED {
        20
    } else if text.starts_with(b"s SATISFIABLE\n") {
        10
    } else {
        1
    }
}

pub(crate) fn says(rt: &impl Abort, report: &Report, text: &[u8]) {
    same(
        rt,
        (report.stdout.as_slice(), report.status),
        (text, status_of(text)),
    );
    assert!(rt; report.proof.is_some() == (report.status == 20));
}

/// The report refutes an input, with a proof that is verified: that proof.
pub(crate) fn refutes(rt: &impl Abort, alloc: Global, input: &[u8], report: &Report) -> Vec<u8> {
    says(rt, report, REFUTED);
    match &report.proof {
        Some(proof) => {
            let text = proof.to_text(alloc).expect(rt, "memory");
            prints(rt, alloc, input, text.as_slice(), VERIFIED);
            text
        }
        None => panic!(rt; "no proof"),
    }
}

fn joined(rt: &impl Abort, alloc: Global, frames: &[&[u8]]) -> Vec<u8> {
    let mut bytes = Vec::new(alloc);
    for frame in frames {
        bytes.extend_from_slice(frame).expect(rt, "memory");
    }
    bytes
}

#[test]
fn units_take_four_frames_in_eight_calls(rt: HostRuntime) {
    let mut links = Counted::new(Kept {
        carrier: Memory::new(rt.alloc(), 1).expect(&rt, "memory"),
        sent: Vec::new(rt.alloc()),
    });
    let report = run_solve(rt.alloc(), UNITS, None, &ALONE, &mut links).expect(&rt, "memory");
    says(&rt, &report, UNITS_HOLD);
    assert_eq!(rt; (links.calls(), links.refusals()), (8, 0));
    let frames = joined(&rt, rt.alloc(), &[TASK, DONE, FETCH, PIECE]);
    assert_eq!(rt; links.carrier().sent.as_slice(), frames.as_slice());
}

/// A run whose first call is refused makes no other.
fn refuses_first(rt: &impl Abort, alloc: Global) {
    let mut links = Counted::new(RefusesAll);
    let report = run_solve(alloc, UNITS, None, &ALONE, &mut links).expect(rt, "memory");
    says(rt, &report, UNKNOWN);
    assert_eq!(rt; (links.calls(), links.refusals()), (1, 1));
}

#[test]
fn without_the_only_link_nothing_is_known(rt: HostRuntime) {
    for number in 1..=9 {
        let report = solved_but(&rt, rt.alloc(), UNITS, &ALONE, number);
        let text = if number <= 8 { UNKNOWN } else { UNITS_HOLD };
        says(&rt, &report, text);
    }
    refuses_first(&rt, rt.alloc());
}

#[test]
fn one_of_two_links_is_enough(rt: HostRuntime) {
    let mut links = Counted::new(Memory::new(rt.alloc(), 2).expect(&rt, "memory"));
    let report = run_solve(rt.alloc(), FOUR, None, &TWO, &mut links).expect(&rt, "memory");
    refutes(&rt, rt.alloc(), FOUR, &report);
    for number in 1..=links.calls() {
        let report = solved_but(&rt, rt.alloc(), FOUR, &TWO, number);
        refutes(&rt, rt.alloc(), FOUR, &report);
    }
}

#[test]
fn one_byte_a_call_is_as_good(rt: HostRuntime) {
    let known = solved(&rt, rt.alloc(), FOUR, None, &TWO);
    let known = refutes(&rt, rt.alloc(), FOUR, &known);
    let mut links = Counted::new(Bytewise {
        carrier: Memory::new(rt.alloc(), 2).expect(&rt, "memory"),
    });
    let report = run_solve(rt.alloc(), FOUR, None, &TWO, &mut links).expect(&rt, "memory");
    let proof = refutes(&rt, rt.alloc(), FOUR, &report);
    assert!(rt; proof.as_slice() == known.as_slice());
}

#[test]
fn an_input_that_comes_byte_by_byte_is_solved_alike(rt: HostRuntime) {
    let inputs: [&[u8]; 3] = [UNITS, FOUR, b"p cnf 1 1\n2 0\n"];
    for input in inputs {
        let whole = solved(&rt, rt.alloc(), input, None, &ALONE);
        let report = solved_bytewise(&rt, rt.alloc(), input, &ALONE);
        says(&rt, &report, whole.stdout.as_slice());
    }
}

const WORKED: [Row; 5] = [
    (&[VERDICT, PART], &[IDLE, WANT, IDLE], UNITS_HOLD),
    (&[VERDICT, WRONG_PART], &[IDLE, WANT, IDLE], UNKNOWN),
    (&[], &[IDLE], UNKNOWN),
    // A link that ends in the middle of a frame, and one that brings no frame.
    (
        &[b"CC\x05\0\x0d\0\0\0\0\0\0\0\x01\x02\0\0"],
        &[IDLE],
        UNKNOWN,
    ),
    (&[b"CD"], &[IDLE], UNKNOWN),
];

/// Links over which these frames come.
fn script(rt: &impl Abort, alloc: Global, frames: &[&[u8]]) -> Counted<Script> {
    let bytes = joined(rt, alloc, frames);
    Counted::new(Script::new(alloc, bytes.as_slice()).expect(rt, "memory"))
}

#[test]
fn a_worker_holds_what_satisfies_its_formula(rt: HostRuntime) {
    for (handed, sent, text) in &WORKED {
        let mut links = script(&rt, rt.alloc(), *handed);
        let report = run_work(rt.alloc(), UNITS, &ALONE, &mut links).expect(&rt, "memory");
        says(&rt, &report, *text);
        let bytes = joined(&rt, rt.alloc(), *sent);
        assert!(&rt; links.carrier().sent() == bytes.as_slice());
    }
}

const SERVED: [Row; 5] = [
    (
        &[IDLE, DONE_WITHOUT],
        &[TASK, VERDICT_WITHOUT],
        b"s SATISFIABLE\nv 0\n",
    ),
    (&[IDLE], &[TASK], UNKNOWN),
    // A link is greeted by Idle of its own worker.
    (&[DONE_WITHOUT, IDLE], &[], UNKNOWN),
    (&[b"CC\x08\0\x0c\0\0\0\x01\0\0\0\0\0\0\0"], &[], UNKNOWN),
    // What waits before a fault is dropped.
    (&[IDLE, b"CD"], &[], UNKNOWN),
];

#[test]
fn a_coordinator_hands_out_its_verdict(rt: HostRuntime) {
    for (handed, sent, text) in &SERVED {
        let mut links = script(&rt, rt.alloc(), *handed);
        let report = run_serve(rt.alloc(), b"p cnf 0 0\n", None, &ALONE, &mut links).expect(
            &rt, "memory",
        );
        says(&rt, &report, *text);
        let bytes = joined(&rt, rt.alloc(), *sent);
        assert!(&rt; links.carrier().sent() == bytes.as_slice());
    }
}

/// All three runs refuse the input alike, and none calls its links.
fn refuses_input(rt: &impl Abort, alloc: Global, input: &[u8], quiet: bool, text: &[u8]) {
    let options = Options { quiet, ..ALONE };
    let mut links = Counted::new(RefusesAll);
    let report = run_solve(alloc, input, None, &options, &mut links).expect(rt, "memory");
    says(rt, &report, text);
    let report = run_serve(alloc, input, None, &options, &mut links).expect(rt, "memory");
    says(rt, &report, text);
    let report = run_work(alloc, input, &options, &mut links).expect(rt, "memory");
    says(rt, &report, text);
    assert_eq!(rt; links.calls(), 0);
}

/// So do both that take cubes.
fn refuses_cubes(rt: &impl Abort, alloc: Global, cubes: &[u8], quiet: bool, text: &[u8]) {
    let options = Options { quiet, ..ALONE };
    let mut links = Counted::new(RefusesAll);
    let report = run_solve(alloc, FOUR, Some(cubes), &options, &mut links).expect(rt, "memory");
    says(rt, &report, text);
    let report = run_serve(alloc, FOUR, Some(cubes), &options, &mut links).expect(rt, "memory");
    says(rt, &report, text);
    assert_eq!(rt; links.calls(), 0);
}

#[test]
fn what_is_refused_makes_no_call(rt: HostRuntime) {
    let a = rt.alloc();
    let input = b"p cnf 2 2\n1 2 0\n-1";
    refuses_input(&rt, a, input, false, b"c input line 3 fault 5\n");
    refuses_input(&rt, a, input, true, b"");
    let other = b"p inccnf\n1 2 0\na 0\n";
    refuses_cubes(&rt, a, other, false, b"c cubes of another formula\n");
    refuses_cubes(&rt, a, other, true, b"");
    refuses_cubes(&rt, a, b"p cnf 2 4\n", false, b"c cubes line 1 fault 2\n");
    refuses_cubes(&rt, a, b"p cnf 2 4\n", true, b"");
}
