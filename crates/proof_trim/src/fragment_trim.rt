//! Trimming a fragment: drops the lemmas that its last one does not need, and checks the result.

ghost use Rattle.std.specs.Prelude.{◌<◌, ◌^◌, IfOk};
ghost use Rattle.std.specs.Bool.{OnTrue};
ghost use Rattle.lrat_text.specs.Log.{Closes};
ghost use Rattle.proof_trim.specs.TrimmedFragment.{HasAtMostAdditions, Trims};

use crate::line_reader::read;
use crate::line_scan::count_lines;
use crate::needs::Needs;
use crate::reverse_lines::ReverseLines;
use crate::rewriter::rewrite;
use dimacs::{Base, Lit};
use lrat_check::check_packed_fragment;
use lrat_text::{StepBuffer, StepRef, TextFault};
use packed_text::PackedText;
use std::alloc::{AllocError, Global};

/// The least number of lemmas of a fragment that is trimmed: a shorter one needs nearly all of its lemmas.
const MANY: usize = 20_000;

/// Answers how many lemmas a fragment has, from the number of its last line: a search numbers lemmas without gaps after the base, and ends
/// with a lemma. `None` if the last line is no addition or the count is above the text's length; then no search wrote the text.
fn count_lemmas(
    alloc: Global,
    base: u64,
    buffer: &mut StepBuffer,
    text: &PackedText,
) -> Result<Option<usize>, TextFault> {
    let mut lines = ReverseLines::of(alloc, text);
    if !lines.back()? {
        return Ok(None);
    }
    read(buffer, lines.line())?;
    let StepRef::Add { id, .. } = buffer.as_ref() else {
        return Ok(None);
    };
    let count = id.saturating_sub(base) as usize;
    if count > text.len() {
        return Ok(None);
    }
    Ok(Some(count))
}

/// Answers the fragment without the lemmas that its last one does not need. `None` if it has fewer than 20,000 lemmas, or if less than a
/// quarter of them would go.
fn shorter(alloc: Global, base: u64, text: &PackedText) -> Result<Option<PackedText>, TextFault>
    requires { base < 2 ^ 40 }
{
    let mut buffer = StepBuffer::new(alloc);
    let Some(count) = count_lemmas(alloc, base, &mut buffer, text)? else {
        return Ok(None);
    };
    if count < MANY {
        return Ok(None);
    }
    let Some(mut needs) = Needs::of(alloc, base, count, &mut buffer, text)? else {
        return Ok(None);
    };
    if needs.rank() > count / 4 * 3 {
        return Ok(None);
    }
    Ok(Some(rewrite(alloc, &needs, &mut buffer, text)?))
}

/// Answers whether a text is a fragment that closes the cube, and has at most `most` lines.
fn is_fragment(
    alloc: Global,
    base: &Base,
    cube: &[Lit],
    most: u64,
    text: &PackedText,
) -> Result<bool, AllocError>
    ensures { IfOk result (λ is. OnTrue is (Closes base.now cube.now text.now × HasAtMostAdditions base.now most text.now)) }
{
    let lines = count_lines(alloc, text)?;
    if lines as u64 > most {
        return Ok(false);
    }
    match check_packed_fragment(alloc, base, cube, text) {
        Ok(()) => Ok(true),
        Err(fault) if fault.is_no_memory() => Err(AllocError),
        Err(_) => Ok(false),
    }
}

/// Trims a fragment: drops the lemmas that its last one does not need, and numbers the others without gaps.
///
/// The answer is the fragment itself, or a shorter one of at most `most` lemmas that [`check_packed_fragment`] accepts; so how the needed
/// lemmas are found does not have to be trusted. A fragment stays as it is if it has fewer than 20,000 lemmas, or if less than a quarter of
/// them would go: the check of the rest would take more time than it saves. No text is unpacked whole.
pub fn trim(
    alloc: Global,
    base: &Base,
    cube: &[Lit],
    most: u64,
    fragment: PackedText,
) -> Result<PackedText, AllocError>
    ensures { IfOk result (λ text. Trims base.now cube.now most fragment text) }
{
    let _ = base.vars(); // for its contract, which bounds the number of clauses
    let short = match shorter(alloc, base.len() as u64, &fragment) {
        Ok(short) => short,
        Err(TextFault::NoMemory) => return Err(AllocError),
        Err(_) => None,
    };
    if let Some(short) = short {
        if short.len() < fragment.len() && is_fragment(alloc, base, cube, most, &short)? {
            return Ok(short);
        }
    }
    Ok(fragment)
}
