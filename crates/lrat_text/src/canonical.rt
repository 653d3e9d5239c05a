//! Canonical lines: those that are exactly what the writer writes for their step, with single spaces.

ghost use Rattle.std.specs.Prelude.{◌≡◌, ℕ, ◌^◌, ◌<◌};
ghost use Rattle.lrat_text.specs.Grammar.{SpellsStep, SpellsStepWithin, space};
ghost use Rattle.lrat_text.specs.WrittenLine.{canonical_id};
ghost use Rattle.lrat_text.specs.declared.step.Step.{Step};
ghost use Rattle.lrat_text.specs.Parser.{line_tokens};
ghost use Rattle.lrat_text.specs.inner.Tokens.{begins_deletion, is_single};

use crate::token::{Token, next_token};

/// Answers whether a line is not empty, and no space is at its beginning, at its end or after another space.
#[tactic(auto, using(crate::proofs::CanonicalLemmas::single_steps))]
fn is_single_spaced(line: &[u8]) -> bool
    ensures { result ≡ is_single space line.now }
{
    if line.is_empty() {
        return false;
    }
    let last = line.len() - 1;
    let mut single = line[0] != b' ';
    for i in 0..last {
        single &= (line[i] != b' ') | (line[i + 1] != b' ');
    }
    single & (line[last] != b' ')
}

/// Answers whether the next token is the letter `d` of a deletion.
#[inline(always)]
fn begins_deletion(rest: &[u8]) -> bool
    ensures { result ≡ begins_deletion (line_tokens rest.now) }
{
    match next_token(rest) {
        Some((Token::Letter, _)) => true,
        _ => false,
    }
}

/// Answers the number of an addition if its line (without LF) is exactly what [`put_ref`](crate::put_ref) writes; `None` for a deletion,
/// and for a line with more spaces than it needs.
///
/// The caller knows that the line spells a step with variables up to some limit below 2^48. Only the first number is read, so this takes a
/// fraction of the time of [`read_line`](crate::read_line).
pub fn canonical_id_within(line: &[u8]) -> Option<u64>
    requires spelled { (most : ℕ) × (most < 2 ^ 48) × (step : Step) × SpellsStepWithin most line.now step }
    ensures { (most : ℕ) (step : Step) → most < 2 ^ 48 → SpellsStepWithin most line.now step → result ≡ canonical_id line.now step }
{
    let Some((first, rest)) = next_token(line) else {
        return None;
    };
    if begins_deletion(rest) || !is_single_spaced(line) {
        return None;
    }
    match first {
        Token::Plus(id) => Some(id),
        _ => None,
    }
}

/// Answers the number of an addition if its line (without LF) is exactly what
/// [`put_ref`](crate::put_ref) writes; `None` for a deletion, and for a line with more spaces than
/// it needs. The caller knows that the line spells a step with variables up to 2,000,000.
pub fn canonical_id(line: &[u8]) -> Option<u64>
    requires spelled { (step : Step) × SpellsStep line.now step }
    ensures { (step : Step) → SpellsStep line.now step → result ≡ canonical_id line.now step }
{
    canonical_id_within(line)
}
