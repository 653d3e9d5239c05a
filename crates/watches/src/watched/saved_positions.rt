//! The saved position of each clause: the index of the literal where the next search for a literal to watch begins (Gent 2013; `pos` of
//! CaDiCaL).
//!
//! A search from the front of a long clause would meet the same false literals at each visit, which is quadratic, so each search begins
//! where the last one ended. Nothing depends on a position: a search finds a literal that is not false wherever it begins.

/// The saved position of the clause at this row; 0 if there is none.
#[inline(always)]
pub(crate) fn saved_position(positions: &[u32], clause: usize) -> usize {
    match positions.get(clause) {
        Some(&start) => start as usize,
        None => 0,
    }
}

/// Saves the index `place` as the position of the clause at this row; nothing changes if the row has no entry or the index needs more than
/// 32 bits.
#[inline(always)]
pub(crate) fn save_position(positions: &mut [u32], clause: usize, place: usize) {
    if clause < positions.len() && place <= u32::MAX as usize {
        positions[clause] = place as u32;
    }
}

/// Removes each position whose entry of `live` is false. The others keep their order.
pub(crate) fn remove_detached_positions(positions: &mut Vec<u32>, live: &[bool]) {
    let mut count = 0;
    for i in 0..positions.len().min(live.len()) {
        if live[i] {
            positions[count] = positions[i];
            count += 1;
        }
    }
    positions.truncate(count);
}
