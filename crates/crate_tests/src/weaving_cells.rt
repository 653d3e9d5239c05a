//! Logs of searches that share lemmas, woven to one.

use crate::inputs::{FOUR, literal_of};
use dimacs::{Lit, read};
use reports::Refusal;
use std::alloc::Global;
use std::process::Abort;
use weaving::{CellLogs, LogSource, Weaver, survey_logs};

/// The three logs of a cell over the four clauses.
struct Cell {
    texts: [&'static [u8]; 3],
}

impl Drop for Cell {
    fn drop(self) {
        let Cell { texts: _ } = self;
    }
}

/// A text that is read three bytes at a time.
#[derive(Drop)]
struct Slow {
    rest: &'static [u8],
}

impl LogSource for Slow {
    fn read(&mut self, room: &mut [u8]) -> Result<usize, Refusal> {
        let count = self.rest.len().min(room.len()).min(3);
        let (first, later) = self.rest.split_at(count);
        room[..count].copy_from_slice(first);
        self.rest = later;
        Ok(count)
    }
}

impl CellLogs for Cell {
    type Source = Slow;

    fn count(&self) -> usize {
        3
    }

    fn name(&self, log: usize) -> &[u8] {
        match log {
            0 => b"a",
            1 => b"b",
            _ => b"c",
        }
    }

    fn open(&self, log: usize) -> Result<Slow, Refusal> {
        match self.texts.get(log) {
            Some(text) => Ok(Slow { rest: *text }),
            None => Err(Refusal::Input),
        }
    }
}

const A: &[u8] = b"5 2 0 1 2 0\ne 3 0\n5 d 5 0\n";

const B: &[u8] = b"e 1 0\nw 7 a 0\n5 i 2 0 7 5 0\n6 1 0 5 3 0\n";

const C: &[u8] =
    b"e 2 0\nw 1 b 0\n5 i 1 0 1 6 0\n6 -2 0 5 4 0\nw 2 a 0\n7 i 2 0 2 5 0\n8 0 6 7 0\n";

/// The log B, without the line that sets its clock: it imports a lemma at the clock at which that is written.
const B_EARLY: &[u8] = b"w 7 a 0\n5 i 2 0 7 5 0\n6 1 0 5 3 0\n";

/// The log C, whose empty lemma lacks a hint.
const C_WRONG: &[u8] = b"e 2 0\nw 1 b 0\n5 i 1 0 1 6 0\n6 0 5 0\n";

/// The text that is woven of the logs of a cell for the cube of these numbers; `None` if no lemma closes the cube, or if the checker
/// refuses a line.
fn woven(rt: &impl Abort, alloc: Global, cell: &Cell, cube: &[i32]) -> Option<Vec<u8>> {
    let formula = read(alloc, FOUR).expect(rt, "a formula");
    let mut literals = Vec::new(alloc);
    for number in cube {
        literals.push(literal_of(rt, *number)).expect(rt, "memory");
    }
    let found = survey_logs(alloc, &formula, &[literals.as_slice()], cell).expect(rt, "a survey");
    let plan = found.plan?;
    let mut weaver = Weaver::of(alloc, formula, literals, plan, cell).expect(rt, "a weaver");
    match weaver.weave() {
        Ok(more) => {
            assert!(rt; !more);
            Some(weaver.written().to_vec(alloc).expect(rt, "memory"))
        }
        Err(_) => None,
    }
}

/// Compares what is woven of a cell; an empty text stands for none.
fn weaves(rt: &impl Abort, alloc: Global, texts: [&'static [u8]; 3], cube: &[i32], want: &[u8]) {
    let text = match woven(rt, alloc, &Cell { texts }, cube) {
        Some(text) => text,
        None => Vec::new(alloc),
    };
    assert_eq!(rt; text.as_slice(), want);
}

#[test]
fn logs_are_woven(rt: HostRuntime) {
    let alloc = rt.alloc();
    weaves(
        &rt,
        alloc,
        [A, B, C],
        &[],
        b"5 2 0 1 2 0\n6 1 0 5 3 0\n7 -2 0 6 4 0\n7 d 6 0\n8 0 7 5 0\n",
    );
    weaves(&rt, alloc, [A, B, C], &[-1], b"5 2 0 1 2 0\n6 1 0 5 3 0\n");
    weaves(&rt, alloc, [A, B, b""], &[], b"");
    weaves(&rt, alloc, [A, B_EARLY, C], &[], b"");
    weaves(&rt, alloc, [A, B, C_WRONG], &[], b"");
}

/// What was found of the second log: how many lines were taken, whether the next one is none, how many imports failed, and the first one's
/// line.
fn second(
    rt: &impl Abort,
    alloc: Global,
    texts: [&'static [u8]; 3],
) -> Option<(u64, bool, u64, u64)> {
    let formula = read(alloc, FOUR).expect(rt, "a formula");
    let found = survey_logs(alloc, &formula, &[], &Cell { texts }).expect(rt, "a survey");
    let log = found.logs.get(1)?;
    Some((log.lines, log.is_bad, log.failed, log.first_failed))
}

#[test]
fn logs_are_surveyed(rt: HostRuntime) {
    let alloc = rt.alloc();
    assert_eq!(&rt; second(&rt, alloc, [A, B, b""]), Some((4, false, 0, 0)));
    assert_eq!(&rt;
        second(&rt, alloc, [A, B_EARLY, b""]),
        Some((3, false, 1, 2))
    );
    assert_eq!(&rt;
        second(&rt, alloc, [A, b"7 0 1 0\n", b""]),
        Some((0, true, 0, 0))
    );
}

/// Cubes are closed by lemmas that stay.
#[test]
fn cubes_are_closed(rt: HostRuntime) {
    let alloc = rt.alloc();
    let formula = read(alloc, FOUR).expect(&rt, "a formula");
    let left = [literal_of(&rt, -1)];
    let right = [literal_of(&rt, 1)];
    let cell = Cell { texts: [A, B, C] };
    let cubes: [&[Lit]; 2] = [&left, &right];
    let found = survey_logs(alloc, &formula, &cubes, &cell).expect(&rt, "a survey");
    let plan = found.plan.expect(&rt, "a plan");
    assert_eq!(&rt;
        (plan.closes(0), plan.closes(1), plan.last()),
        (true, true, 1)
    );
    let last = right.to_vec(alloc).expect(&rt, "memory");
    let mut weaver = Weaver::of(alloc, formula, last, plan, &cell).expect(&rt, "a weaver");
    assert_eq!(&rt; weaver.weave(), Ok(false));
    let want = b"5 2 0 1 2 0\n6 1 0 5 3 0\n7 -2 0 6 4 0\n8 0 7 5 0\n".as_slice();
    assert_eq!(&rt; weaver.written(), want);
    assert!(&rt; weaver.closes(0, &left) && weaver.closes(1, &right) && !weaver.closes(0, &right));
}
