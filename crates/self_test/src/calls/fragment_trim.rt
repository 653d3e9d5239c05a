//! A fragment that is trimmed.

use super::call::{Answer, Call, Tried, made, try_twice};
use crate::formulas::FOUR;
use dimacs::{Base, read};
use packed_text::PackedText;
use proof_trim::trim;
use std::alloc::{AllocError, Global};
use std::fmt::Write;

/// A fragment over a base.
#[derive(Drop)]
struct Long {
    alloc: Global,
    base: Base,
    fragment: String,
}

impl Call for Long {
    /// Trims the fragment.
    fn make(&mut self) -> Answer {
        let Ok(fragment) = PackedText::of(self.alloc, self.fragment.as_str().as_bytes()) else {
            return Answer::NoMemory;
        };
        match trim(self.alloc, &self.base, &[], 2, fragment) {
            Ok(text) => made(self.alloc, &text),
            Err(_) => Answer::NoMemory,
        }
    }
}

/// The lemma `2`, 20,000 that nothing needs, and the empty clause.
fn with_idle(alloc: Global) -> Result<String, AllocError> {
    let mut text = String::new(alloc);
    text.push_str("5 2 0 1 2 0\n")?;
    for number in 6u32..20006 {
        write!(text, "{number} 2 1 0 1 0\n")?;
    }
    text.push_str("20006 0 5 3 4 0\n")?;
    Ok(text)
}

/// Trims a fragment of 20,002 lemmas, of which two are needed; twice if memory was wanting.
pub(crate) fn trimmed(alloc: Global) -> Option<Tried> {
    let formula = read(alloc, FOUR).ok()?;
    let base = Base::of(alloc, &formula).ok()?;
    let fragment = with_idle(alloc).ok()?;
    Some(try_twice(&mut Long {
        alloc,
        base,
        fragment,
    }))
}
