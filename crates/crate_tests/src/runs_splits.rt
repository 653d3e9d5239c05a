//! A cluster whose workers may do little under a cube splits it.

ghost use Rattle.std.specs.Prelude.{◌≤◌};

use dimacs::{Formula, read};
use icnf::Tree;
use links::{Counted, Memory};
use lrat_check::{Verdict, check};
use runs::{CoordinatorPlan, solve};
use std::alloc::Global;
use std::process::Abort;
use std::test::Fail;

/// Every clause over three variables.
const ALL_EIGHT: &[u8] =
    b"p cnf 3 8\n1 2 3 0\n1 2 -3 0\n1 -2 3 0\n1 -2 -3 0\n-1 2 3 0\n-1 2 -3 0\n-1 -2 3 0\n-1 -2 -3 0\n";

fn all_eight(alloc: Global) -> Result<Formula, Fail> {
    Ok(read(alloc, ALL_EIGHT).ok().ok_or("a formula")?)
}

/// What so many workers make of it, from one leaf on, with this limit under each cube.
fn verdict_of(alloc: Global, workers: u32, limit: u64) -> Result<Verdict, Fail>
    requires { (1 ≤ workers) × (workers ≤ 64) }
{
    let formula = all_eight(alloc)?;
    let tree = Tree::leaf(alloc)?;
    let plan = CoordinatorPlan {
        workers,
        limit,
        session: 1,
        defs: 0,
    };
    let mut links = Counted::new(Memory::new(alloc, workers)?);
    Ok(solve(alloc, formula, tree, &plan, &mut links)?)
}

fn is_refuted(rt: &impl Abort, alloc: Global, workers: u32, limit: u64) -> Result<(), Fail> {
    assert!(rt; workers >= 1 && workers <= 64);
    match verdict_of(alloc, workers, limit)? {
        Verdict::Proof(text) => {
            assert!(rt; check(alloc, &all_eight(alloc)?, text.to_text(alloc)?.as_slice()).is_ok());
        }
        _ => assert!(rt; false),
    }
    Ok(())
}

#[test]
fn little_work_under_each_cube_suffices(rt: HostRuntime) -> Result<(), Fail> {
    is_refuted(&rt, rt.alloc(), 1, 1)?;
    is_refuted(&rt, rt.alloc(), 1, 0)?;
    is_refuted(&rt, rt.alloc(), 3, 1)
}
