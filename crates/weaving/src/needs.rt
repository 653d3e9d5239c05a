//! What the lemmas that close the cubes need.

use crate::lemma_table::LemmaTable;
use std::alloc::{AllocError, Global};

/// The mark of a lemma that closes a cube: it is never deleted.
const KEPT: u32 = u32::MAX;

/// By lemma, 1 plus the number of the lemma that needs it last; 0 if none does. A lemma of `closings` has the mark `KEPT`.
pub(crate) fn last_uses(
    alloc: Global,
    lemmas: &LemmaTable,
    closings: &[u32],
) -> Result<Vec<u32>, AllocError> {
    let mut uses: Vec<u32> = vec![in alloc; 0; lemmas.len()]?;
    for &closing in closings {
        if let Some(last) = uses.get_mut(closing as usize) {
            *last = KEPT;
        }
    }
    for lemma in (0..lemmas.len()).rev() {
        if uses.get(lemma) == Some(&0) {
            continue;
        }
        let user = (lemma as u64).saturating_add(1).min(0xFFFF_FFFE) as u32;
        note_uses(&mut uses, lemmas.hints_of(lemma), user);
    }
    Ok(uses)
}

/// Notes the user of these lemmas, where no later one was noted.
fn note_uses(uses: &mut [u32], lemmas: &[u32], user: u32) {
    for &lemma in lemmas {
        if let Some(last) = uses.get_mut(lemma as usize) {
            if *last == 0 {
                *last = user;
            }
        }
    }
}
