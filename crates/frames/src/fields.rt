//! The fields of a payload, each read from the front of the bytes.

ghost use Rattle.std.specs.Prelude.{◌≡◌, ◌≢◌, ◌+◌, ◌*◌, ◌%◌, ◌≤◌, ◌<◌, ◌^◌, ◌++◌, length, take, drop, MatchOption, MatchResult, flat_map};
ghost use Rattle.std.specs.Int.{w32, to_be_bytes};
ghost use Rattle.dimacs.specs.logic.Literal.{Literal};
ghost use Rattle.frames.specs.Cubes.{IsCube};
ghost use Rattle.frames.specs.WireFormat.{attempt_bytes, finding_bytes, ending_bytes, literal_bytes, IsWorker, IsAttempt, IsFinding, IsEnding};
ghost use Rattle.frames.specs.inner.AnswerField.{answer_bytes, IsAnswer};
ghost use Rattle.frames.specs.inner.Decoder.{BeginsWithField, BeginsWithNoField, IsSpelled, SpellsNone, IsTwosComplement, FaultMeans};

use crate::answer::{Answer, Ending, Finding, ProofLength};
use crate::big_endian::{u32_at, u64_at};
use crate::cube::Cube;
use crate::fault::FrameFault;
use crate::frame::Attempt;
use crate::worker::WorkerNumber;
use dimacs::{Lit, Var};
use std::alloc::Global;

/// Reads the worker's number in the first four bytes. Returns it and the bytes after it; `None` if it is not 1 to 64.
pub(crate) fn worker_at(bytes: &[u8]) -> Option<(WorkerNumber, &[u8])>
    requires { 4 ≤ length bytes.now }
    ensures { MatchOption result (BeginsWithNoField (to_be_bytes w32) IsWorker bytes.now) (λ r. BeginsWithField (to_be_bytes w32) IsWorker bytes.now r.0 r.1.now) }
{
    let (number, rest) = u32_at(bytes);
    if 1 <= number && number <= 64 {
        Some((WorkerNumber::new(number), rest))
    } else {
        None
    }
}

/// Reads the attempt in the first 28 bytes. Returns it and the bytes after it; `None` if its worker's number is not 1 to 64.
pub(crate) fn attempt_at(bytes: &[u8]) -> Option<(Attempt, &[u8])>
    requires { 28 ≤ length bytes.now }
    ensures { MatchOption result (BeginsWithNoField attempt_bytes IsAttempt bytes.now) (λ r. BeginsWithField attempt_bytes IsAttempt bytes.now r.0 r.1.now) }
{
    let (session, rest) = u64_at(bytes);
    let (job, rest) = u64_at(rest);
    match worker_at(rest) {
        None => None,
        Some((worker, rest)) => {
            let (incarnation, rest) = u64_at(rest);
            let attempt = Attempt {
                session,
                job,
                worker,
                incarnation,
            };
            Some((attempt, rest))
        }
    }
}

/// Reads the answer in the first byte. Returns it and the bytes after it; `None` if the byte is neither 1 nor 2.
pub(crate) fn answer_at(bytes: &[u8]) -> Option<(Answer, &[u8])>
    requires { 1 ≤ length bytes.now }
    ensures { MatchOption result (BeginsWithNoField answer_bytes IsAnswer bytes.now) (λ r. BeginsWithField answer_bytes IsAnswer bytes.now r.0 r.1.now) }
{
    match bytes {
        [1, rest @ ..] => Some((Answer::Refuted, rest)),
        [2, rest @ ..] => Some((Answer::Assignment, rest)),
        _ => None,
    }
}

/// Reads the finding in these five bytes (answer and length); `None` if the answer is unknown, or a
/// proof's length is 0.
pub(crate) fn finding_of(bytes: &[u8]) -> Option<Finding>
    requires { length bytes.now ≡ 5 }
    ensures { MatchOption result (SpellsNone finding_bytes IsFinding bytes.now) (λ f. IsSpelled finding_bytes IsFinding bytes.now f) }
{
    let number = bytes[0];
    let (length, _) = u32_at(&bytes[1..]);
    if number == 1 && 1 <= length {
        let length = ProofLength::new(length);
        return Some(Finding::Refuted { length });
    }
    if number == 2 {
        return Some(Finding::Assignment { length });
    }
    None
}

/// Reads the ending in these five bytes: 3 and zeros for a search that met its limit, or else a
/// finding; `None` if they are neither.
pub(crate) fn ending_of(bytes: &[u8]) -> Option<Ending>
    requires { length bytes.now ≡ 5 }
    ensures { MatchOption result (SpellsNone ending_bytes IsEnding bytes.now) (λ o. IsSpelled ending_bytes IsEnding bytes.now o) }
{
    let number = bytes[0];
    let (length, _) = u32_at(&bytes[1..]);
    if number == 3 && length == 0 {
        return Some(Ending::Limit);
    }
    match finding_of(bytes) {
        None => None,
        Some(finding) => Some(Ending::Decided(finding)),
    }
}

/// The literal whose number is `word` in two's complement; `None` if a cube cannot have the literal.
fn literal_from(word: u32) -> Option<Lit>
    ensures { MatchOption result ((l : Literal) → IsTwosComplement word l → ⊥) (λ l. IsTwosComplement word l) }
{
    if 1 <= word && word <= Cube::VARIABLES {
        return Some(Lit::positive(Var::new(word)));
    }
    let negated = u32::MAX - word;
    if negated < Cube::VARIABLES {
        return Some(Lit::negative(Var::new(negated + 1)));
    }
    None
}

/// Reads the cube of these bytes, four for each literal; `BadField` if they are not the literals of a cube.
pub(crate) fn cube_of(alloc: Global, bytes: &[u8]) -> Result<Cube, FrameFault>
    requires { length bytes.now % 4 ≡ 0 }
    ensures spelled { MatchResult result (λ c. IsSpelled (flat_map literal_bytes) IsCube bytes.now c) (λ e. FaultMeans e (SpellsNone (flat_map literal_bytes) IsCube bytes.now)) }
    ensures room { result ≡ Err FrameFault.NoMemory → 0 < length bytes.now }
{
    let mut cube = Cube::new(alloc);
    let mut rest = bytes;
    while !rest.is_empty() {
        let (word, after) = u32_at(rest);
        let Some(literal) = literal_from(word) else {
            return Err(FrameFault::BadField);
        };
        if !cube.takes(literal) {
            return Err(FrameFault::BadField);
        }
        cube.push(literal)?;
        rest = after;
    }
    Ok(cube)
}
