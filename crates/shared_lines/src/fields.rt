//! The lines without a clause: a name's and the clock's.

ghost use Rattle.std.specs.Prelude.{◌≡◌, ℕ, List, ◌++◌, ◌↔◌, codes, IsTrue, MatchOption};
ghost use Rattle.lrat_text.specs.Grammar.{IsClauseNumber};
ghost use Rattle.shared_logs.specs.SharedText.{IsName, SpellsClock, SpellsName};

use crate::bytes::{after_prefix, before_suffix, cut_word};
use crate::number::number_of;

/// The greatest number of bytes of a name.
const NAME_BYTES: usize = 64;

/// Every number of a clause or a log is below this.
const NUMBERS: u64 = 1 << 48;

/// The greatest time of a clock.
pub(crate) const LAST_TIME: u64 = 1 << 40;

/// Tells whether the bytes are the name of a log: 1 to 64 letters and digits.
pub fn is_name(name: &[u8]) -> bool
    ensures { IsTrue result ↔ IsName name.now }
{
    !name.is_empty()
        && name.len() <= NAME_BYTES
        && name.iter().all(|byte| byte.is_ascii_alphanumeric())
}

/// Tells whether the number is one of a clause, as that of a lemma or a hint, or one that can stand for a name.
pub fn is_clause_number(number: u64) -> bool
    ensures { IsTrue result ↔ IsClauseNumber number }
{
    1 <= number && number < NUMBERS
}

/// Reads the line of a name: answers the number, and the name for which it stands. `None` if the line is none.
pub(crate) fn read_name(line: &[u8]) -> Option<(u64, &[u8])>
    ensures { MatchOption result ((number : ℕ) (name : List ℕ) → ¬ (SpellsName line.now number name)) (λ p. SpellsName line.now p.0 p.1.now) }
{
    let Some(fields) = after_prefix(line, b"w ") else {
        return None;
    };
    let Some((word, rest)) = cut_word(fields) else {
        return None;
    };
    let Some(number) = number_of(word) else {
        return None;
    };
    let Some(name) = before_suffix(rest, b" 0") else {
        return None;
    };
    if is_clause_number(number) && is_name(name) {
        Some((number, name))
    } else {
        None
    }
}

/// Reads the line of the clock: answers its time. `None` if the line is none.
pub(crate) fn read_clock(line: &[u8]) -> Option<u64>
    ensures { MatchOption result ((time : ℕ) → ¬ (SpellsClock line.now time)) (λ time. SpellsClock line.now time) }
{
    let Some(fields) = after_prefix(line, b"e ") else {
        return None;
    };
    let Some(word) = before_suffix(fields, b" 0") else {
        return None;
    };
    let Some(time) = number_of(word) else {
        return None;
    };
    if time <= LAST_TIME { Some(time) } else { None }
}
