//! Fragments are trimmed.

use crate::cube_solve_searches::base_of;
use crate::inputs::FOUR;
use packed_text::PackedText;
use proof_trim::trim;
use std::alloc::Global;
use std::fmt::Write;
use std::process::Abort;
use std::test::Fail;

/// The lemma `2`, 20,000 that nothing needs, under the numbers from 6 on, and what follows.
fn with_idle(rt: &impl Abort, alloc: Global, end: &str) -> String {
    let mut text = String::new(alloc);
    text.push_str("5 2 0 1 2 0\n").expect(rt, "memory");
    for number in 6u32..20006 {
        write!(text, "{number} 2 1 0 1 0\n").expect(rt, "memory");
    }
    text.push_str(end).expect(rt, "memory");
    text
}

/// What a fragment over the four clauses is trimmed to, under no cube.
fn trimmed(alloc: Global, most: u64, fragment: &str) -> Result<Vec<u8>, Fail> {
    let base = base_of(alloc, FOUR)?;
    let fragment = PackedText::of(alloc, fragment.as_bytes())?;
    Ok(trim(alloc, &base, &[], most, fragment)?.to_text(alloc)?)
}

/// A fragment is trimmed to this, if it has no more lemmas than `most` then.
fn becomes(
    rt: &impl Abort,
    alloc: Global,
    most: u64,
    fragment: &str,
    want: &[u8],
) -> Result<(), Fail> {
    let short = trimmed(alloc, most, fragment)?;
    assert_eq!(rt; short.as_slice(), want);
    Ok(())
}

/// Two lemmas that are needed, and deletions.
const NEEDED: &str = "20006 1 0 5 3 0\n20006 d 6 5 7 0\n20006 d 8 0\n20007 0 20006 2 4 0\n";

/// What is left with them.
const SHORT: &[u8] = b"5 2 0 1 2 0\n6 1 0 5 3 0\n6 d 5 0\n7 0 6 2 4 0\n";

#[test]
fn lemmas_that_nothing_needs_go(rt: HostRuntime) -> Result<(), Fail> {
    let text = with_idle(&rt, rt.alloc(), NEEDED);
    let whole = text.as_str();
    becomes(&rt, rt.alloc(), 4, whole, SHORT)?;
    becomes(&rt, rt.alloc(), 3, whole, whole.as_bytes())
}

/// It stays as it is behind lemmas that nothing needs.
fn stays(rt: &impl Abort, alloc: Global, end: &str) -> Result<(), Fail> {
    let text = with_idle(rt, alloc, end);
    let whole = text.as_str();
    becomes(rt, alloc, 30_000, whole, whole.as_bytes())
}

#[test]
fn what_would_close_nothing_stays(rt: HostRuntime) -> Result<(), Fail> {
    for end in ["20006 1 0 5 3 0\n", "20006 0 5 3 1 0\n", "20006 x\n"] {
        stays(&rt, rt.alloc(), end)?;
    }
    Ok(())
}

#[test]
fn a_short_fragment_stays(rt: HostRuntime) -> Result<(), Fail> {
    let text = "5 2 1 0 1 0\n6 2 0 1 2 0\n7 0 6 3 4 0\n";
    becomes(&rt, rt.alloc(), 100, text, text.as_bytes())
}
