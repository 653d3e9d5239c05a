//! Laws of frames and streams, as contracts of calls that do nothing.

ghost use Rattle.std.specs.Prelude.{◌≡◌, List, ℕ, ◌++◌, ◌<◌, ◌^◌};
ghost use Rattle.frames.specs.declared.frame.Frame.{Frame};
ghost use Rattle.frames.specs.WireFormat.{FrameBytes, IsRight, IsAttempt, IsFinding, IsEnding};
ghost use Rattle.frames.specs.Stream.{End, Stream};

use crate::answer::{Ending, Finding};
use crate::frame::{Attempt, Frame};

/// No encoding is a prefix of another: each frame has one encoding, and each encoding is of one frame.
pub fn no_spelling_begins_another()
    ensures same { (f g : Frame) (a b : List ℕ) → IsRight f → IsRight g → FrameBytes f ++ a ≡ FrameBytes g ++ b → (f ≡ g) × (a ≡ b) }
{}

/// The bytes of a stream determine its frames and its end.
pub fn streams_are_read_one_way()
    ensures same { (bytes : List ℕ) (fs gs : List Frame) (d e : End) → Stream bytes fs d → Stream bytes gs e → (fs ≡ gs) × (d ≡ e) }
{}

/// The fields of each value of the type `Frame` are right.
pub fn fields_are_right(frame: &Frame)
    ensures { IsRight frame.now }
{
    match frame {
        Frame::Task {
            session,
            job,
            limit,
            cube,
        } => {
            fits_64(*session);
            fits_64(*job);
            fits_64(*limit);
            let _ = cube.as_slice(); // ensures `IsCube`
        }
        Frame::Done { attempt, ending } => {
            right_attempt(attempt);
            right_ending(ending);
        }
        Frame::Fetch { attempt, offset } => {
            right_attempt(attempt);
            fits_32(*offset);
        }
        Frame::Piece {
            attempt,
            offset,
            bytes,
        } => {
            right_attempt(attempt);
            fits_32(*offset);
            let _ = bytes.len(); // ensures that they are 1 to 4,000
        }
        Frame::Verdict { session, finding } => {
            fits_64(*session);
            right_finding(finding);
        }
        Frame::Want {
            session,
            worker,
            offset,
        } => {
            fits_64(*session);
            fits_32(*offset);
            let _ = worker.number(); // ensures that it is 1 to 64
        }
        Frame::Part {
            session,
            offset,
            bytes,
            ..
        } => {
            fits_64(*session);
            fits_32(*offset);
            let _ = bytes.len(); // ensures that they are 1 to 4,000
        }
        Frame::Idle {
            worker,
            incarnation,
        } => {
            fits_64(*incarnation);
            let _ = worker.number(); // ensures that it is 1 to 64
        }
        Frame::Rest => {}
    }
}

/// A step of proofs: the fields of each value of the type `Attempt` are right. It does nothing at
/// run time.
fn right_attempt(attempt: &Attempt)
    ensures { IsAttempt attempt.now }
{
    fits_64(attempt.session);
    fits_64(attempt.job);
    fits_64(attempt.incarnation);
    let _ = attempt.worker.number(); // ensures that it is 1 to 64
}

/// A step of proofs: the length in each value of the type `Finding` is right. It does nothing at
/// run time.
fn right_finding(finding: &Finding)
    ensures { IsFinding finding.now }
{
    match finding {
        Finding::Refuted { length } => {
            fits_32(length.bytes());
        }
        Finding::Assignment { length } => {
            fits_32(*length);
        }
    }
}

/// A step of proofs: the finding in each value of the type `Ending` is right. It does nothing at
/// run time.
fn right_ending(ending: &Ending)
    ensures { IsEnding ending.now }
{
    match ending {
        Ending::Decided(finding) => right_finding(finding),
        Ending::Limit => {}
    }
}

/// A step of proofs: a `u64` is below 2^64. It does nothing at run time.
fn fits_64(number: u64)
    ensures { number < 2 ^ 64 }
{}

/// A step of proofs: a `u32` is below 2^32. It does nothing at run time.
fn fits_32(number: u32)
    ensures { number < 2 ^ 32 }
{}
