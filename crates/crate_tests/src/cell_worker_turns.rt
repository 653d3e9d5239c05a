//! Workers of a cell, one of which takes over a lemma of the other one.

use crate::inputs::{FOUR, UNITS, literal_of};
use cell_worker::{CellWorker, Turn};
use dimacs::read;
use elimination::eliminate;
use std::process::Abort;
use std::test::Fail;
use watches::Watched;

/// The first worker refutes the four clauses by two lemmas, and offers both. The second one imports the first of them under the number 5 too,
/// and so needs one lemma. The other offers are refused: the clock is not above the one's time, the other one's variable is none of the
/// formula's.
#[test]
fn a_worker_takes_over_a_lemma(rt: HostRuntime) -> Result<(), Fail> {
    let formula = read(rt.alloc(), FOUR)?;
    let mut watches = Watched::new(rt.alloc());
    let mut first = CellWorker::new(rt.alloc(), &mut watches, &formula, 0).expect(&rt, "memory");
    let turn = first.turn(&[], 100).expect(&rt, "memory");
    assert!(rt; matches!(turn, Turn::Closed(6)));
    assert!(rt; first.written() == b"5 1 0 1 3 0\n6 0 5 2 4 0\n".as_slice());
    assert!(rt; first.offered() == b"0 5 1 0\n0 6 0\n".as_slice());
    let mut others = Watched::new(rt.alloc());
    let mut second = CellWorker::new(rt.alloc(), &mut others, &formula, 0).expect(&rt, "memory");
    let log = second.name(b"a").expect(&rt, "memory");
    assert!(rt; second.advance(0).expect(&rt, "memory"));
    assert!(rt;
        second
            .lend(log, 5, &[literal_of(&rt, 1)], 0)
            .expect(&rt, "memory")
    );
    assert!(rt; !second.lend(log, 6, &[], 1).expect(&rt, "memory"));
    assert!(rt;
        !second
            .lend(log, 7, &[literal_of(&rt, 3)], 0)
            .expect(&rt, "memory")
    );
    let turn = second.turn(&[], 0).expect(&rt, "memory");
    assert!(rt; matches!(turn, Turn::Closed(6)));
    assert!(rt; second.written() == b"w 1 a 0\ne 1 0\n5 i 1 0 1 5 0\n6 0 5 2 4 0\n".as_slice());
    assert!(rt; second.offered() == b"1 6 0\n".as_slice());
    Ok(())
}

#[test]
fn a_worker_finds_an_assignment(rt: HostRuntime) -> Result<(), Fail> {
    let formula = read(rt.alloc(), UNITS)?;
    let mut watches = Watched::new(rt.alloc());
    let mut worker = CellWorker::new(rt.alloc(), &mut watches, &formula, 7).expect(&rt, "memory");
    match worker.turn(&[], 0).expect(&rt, "memory") {
        Turn::Satisfied(values) => assert!(rt; values.values() == [true, false].as_slice()),
        _ => assert!(rt; false),
    }
    assert!(rt; !worker.advance(1 << 40).expect(&rt, "memory"));
    Ok(())
}

/// Over what elimination leaves of the four clauses the log begins with a resolvent, under the number 5, and the lemma that closes the
/// formula has a number behind all of them.
#[test]
fn a_worker_eliminates(rt: HostRuntime) -> Result<(), Fail> {
    let formula = read(rt.alloc(), FOUR)?;
    let found = eliminate(rt.alloc(), &formula, &[]).expect(&rt, "memory");
    let kept = found.ok_or("nothing is left")?;
    let all = kept.all;
    assert!(rt; 4 < all && all < 100);
    let mut watches = Watched::new(rt.alloc());
    let mut worker = CellWorker::over(rt.alloc(), &mut watches, &formula, kept, 0).expect(
        &rt, "memory",
    );
    assert!(rt; worker.written().first() == Some(&b'5'));
    match worker.turn(&[], 100).expect(&rt, "memory") {
        Turn::Closed(number) => assert!(rt; all < number),
        _ => assert!(rt; false),
    }
    Ok(())
}
