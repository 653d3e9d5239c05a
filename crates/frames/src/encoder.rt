//! The encoder: it writes the bytes of a frame.

ghost use Rattle.std.specs.Prelude.{◌≡◌, ◌+◌, ◌*◌, ◌≤◌, ◌∷◌, ◌++◌, length, drop, flat_map};
ghost use Rattle.std.specs.Int.{w16, w32, cast_unsigned, to_be_bytes};
ghost use Rattle.dimacs.specs.logic.Literal.{number_of};
ghost use Rattle.frames.specs.WireFormat.{FrameBytes, IsRight, kind_number, payload, literal_bytes, attempt_bytes, finding_bytes, ending_bytes};
ghost use Rattle.frames.specs.inner.Puts.{Puts};

use crate::answer::{Answer, Ending, Finding};
use crate::big_endian::{put_u16, put_u32, put_u64};
use crate::chunk::Chunk;
use crate::cube::Cube;
use crate::frame::{Attempt, Frame, Kind};
use crate::header::{HEADER_LEN, MARK};
use crate::worker::WorkerNumber;
use dimacs::Lit;

/// The length of a frame's payload in bytes, at most 4,032.
fn payload_len(frame: &Frame) -> usize
    ensures value { result ≡ length (payload frame.now) }
    ensures limit { result ≤ 4032 }
{
    match frame {
        Frame::Task { cube, .. } => 24 + 4 * cube.len(),
        Frame::Done { .. } => 33,
        Frame::Fetch { .. } => 32,
        Frame::Piece { bytes, .. } => 32 + bytes.len(),
        Frame::Verdict { .. } => 13,
        Frame::Want { .. } => 16,
        Frame::Part { bytes, .. } => 13 + bytes.len(),
        Frame::Idle { .. } => 12,
        Frame::Rest => 0,
    }
}

/// The length of an encoded frame in bytes, 5 to 4,037.
pub fn len(frame: &Frame) -> usize
    ensures value { result ≡ length (FrameBytes frame.now) }
    ensures limit { result ≤ 4037 }
{
    HEADER_LEN + payload_len(frame)
}

/// Writes `bytes` at index `at`. Returns the index after them.
fn put_bytes(out: &mut [u8], at: usize, bytes: &[u8]) -> usize
    requires { at + length bytes.now ≤ length out.old }
    ensures { Puts out.old at bytes.now out.new result }
{
    let end = at + bytes.len();
    out[at..end].copy_from_slice(bytes);
    end
}

/// Writes the header of a frame at the front of `out`; `len` is the payload's length. Returns the index after it.
fn put_header(out: &mut [u8], kind: Kind, len: u16) -> usize
    requires { 5 ≤ length out.old }
    ensures { Puts out.old 0 (67 ∷ 67 ∷ kind_number kind ∷ to_be_bytes w16 len) out.new result }
{
    let at = put_bytes(out, 0, &[MARK, MARK, kind.number()]);
    put_u16(out, at, len)
}

/// Writes an attempt at index `at`, in 28 bytes. Returns the index after it.
fn put_attempt(out: &mut [u8], at: usize, attempt: &Attempt) -> usize
    requires { at + 28 ≤ length out.old }
    ensures { Puts out.old at (attempt_bytes attempt.now) out.new result }
{
    let at = put_u64(out, at, attempt.session);
    let at = put_u64(out, at, attempt.job);
    let at = put_u32(out, at, attempt.worker.number());
    put_u64(out, at, attempt.incarnation)
}

/// Writes a finding at index `at`, in five bytes. Returns the index after it.
fn put_finding(out: &mut [u8], at: usize, finding: &Finding) -> usize
    requires { at + 5 ≤ length out.old }
    ensures { Puts out.old at (finding_bytes finding.now) out.new result }
{
    let answer = finding.answer().number();
    let at = put_bytes(out, at, &[answer]);
    put_u32(out, at, finding.length())
}

/// Writes an ending at index `at`, in five bytes. Returns the index after it.
fn put_ending(out: &mut [u8], at: usize, ending: &Ending) -> usize
    requires { at + 5 ≤ length out.old }
    ensures { Puts out.old at (ending_bytes ending.now) out.new result }
{
    match ending {
        Ending::Decided(finding) => put_finding(out, at, finding),
        Ending::Limit => put_bytes(out, at, &[3, 0, 0, 0, 0]),
    }
}

/// The number of a literal in 32 bits, in two's complement.
fn word(literal: Lit) -> u32
    ensures { result ≡ cast_unsigned w32 (number_of literal) }
{
    literal.number().cast_unsigned()
}

/// Writes literals at index `at`, four bytes for each. Returns the index after them.
fn put_literals(out: &mut [u8], at: usize, literals: &[Lit]) -> usize
    requires { at + 4 * length literals.now ≤ length out.old }
    ensures { Puts out.old at (flat_map literal_bytes literals.now) out.new result }
{
    let mut at = at;
    for literal in literals {
        at = put_u32(out, at, word(*literal));
    }
    at
}

/// Writes the payload of a task at index `at`. Returns the index after it.
fn put_task(out: &mut [u8], at: usize, session: u64, job: u64, limit: u64, cube: &Cube) -> usize
    requires { at + 24 + 4 * length cube.now ≤ length out.old }
    ensures { Puts out.old at (payload (Frame.Task session job limit cube.now)) out.new result }
{
    let at = put_u64(out, at, session);
    let at = put_u64(out, at, job);
    let at = put_u64(out, at, limit);
    put_literals(out, at, cube.as_slice())
}

/// Writes the payload of a done frame at index `at`. Returns the index after it.
fn put_done(out: &mut [u8], at: usize, attempt: &Attempt, ending: &Ending) -> usize
    requires { at + 33 ≤ length out.old }
    ensures { Puts out.old at (payload (Frame.Done attempt.now ending.now)) out.new result }
{
    let at = put_attempt(out, at, attempt);
    put_ending(out, at, ending)
}

/// Writes the payload of a fetch frame at index `at`. Returns the index after it.
fn put_fetch(out: &mut [u8], at: usize, attempt: &Attempt, offset: u32) -> usize
    requires { at + 32 ≤ length out.old }
    ensures { Puts out.old at (payload (Frame.Fetch attempt.now offset)) out.new result }
{
    let at = put_attempt(out, at, attempt);
    put_u32(out, at, offset)
}

/// Writes the payload of a piece frame at index `at`. Returns the index after it.
fn put_piece(out: &mut [u8], at: usize, attempt: &Attempt, offset: u32, bytes: &Chunk) -> usize
    requires { at + 32 + length bytes.now ≤ length out.old }
    ensures { Puts out.old at (payload (Frame.Piece attempt.now offset bytes.now)) out.new result }
{
    let at = put_fetch(out, at, attempt, offset);
    put_bytes(out, at, bytes.as_slice())
}

/// Writes the payload of a verdict at index `at`. Returns the index after it.
fn put_verdict(out: &mut [u8], at: usize, session: u64, finding: &Finding) -> usize
    requires { at + 13 ≤ length out.old }
    ensures { Puts out.old at (payload (Frame.Verdict session finding.now)) out.new result }
{
    let at = put_u64(out, at, session);
    put_finding(out, at, finding)
}

/// Writes the payload of a want frame at index `at`. Returns the index after it.
fn put_want(out: &mut [u8], at: usize, session: u64, worker: WorkerNumber, offset: u32) -> usize
    requires { at + 16 ≤ length out.old }
    ensures { Puts out.old at (payload (Frame.Want session worker offset)) out.new result }
{
    let at = put_u64(out, at, session);
    let at = put_u32(out, at, worker.number());
    put_u32(out, at, offset)
}

/// Writes the payload of a part frame at index `at`. Returns the index after it.
fn put_part(
    out: &mut [u8],
    at: usize,
    session: u64,
    answer: Answer,
    offset: u32,
    bytes: &Chunk,
) -> usize
    requires { at + 13 + length bytes.now ≤ length out.old }
    ensures { Puts out.old at (payload (Frame.Part session answer offset bytes.now)) out.new result }
{
    let at = put_u64(out, at, session);
    let number = answer.number();
    let at = put_bytes(out, at, &[number]);
    let at = put_u32(out, at, offset);
    put_bytes(out, at, bytes.as_slice())
}

/// Writes the payload of an idle frame at index `at`. Returns the index after it.
fn put_idle(out: &mut [u8], at: usize, worker: WorkerNumber, incarnation: u64) -> usize
    requires { at + 12 ≤ length out.old }
    ensures { Puts out.old at (payload (Frame.Idle worker incarnation)) out.new result }
{
    let at = put_u32(out, at, worker.number());
    put_u64(out, at, incarnation)
}

/// Writes the payload of a frame at index `at`. Returns the index after it.
fn put_payload(out: &mut [u8], at: usize, frame: &Frame) -> usize
    requires { at + length (payload frame.now) ≤ length out.old }
    ensures { Puts out.old at (payload frame.now) out.new result }
{
    match frame {
        Frame::Task {
            session,
            job,
            limit,
            cube,
        } => put_task(out, at, *session, *job, *limit, cube),
        Frame::Done { attempt, ending } => put_done(out, at, attempt, ending),
        Frame::Fetch { attempt, offset } => put_fetch(out, at, attempt, *offset),
        Frame::Piece {
            attempt,
            offset,
            bytes,
        } => put_piece(out, at, attempt, *offset, bytes),
        Frame::Verdict { session, finding } => put_verdict(out, at, *session, finding),
        Frame::Want {
            session,
            worker,
            offset,
        } => put_want(out, at, *session, *worker, *offset),
        Frame::Part {
            session,
            answer,
            offset,
            bytes,
        } => put_part(out, at, *session, *answer, *offset, bytes),
        Frame::Idle {
            worker,
            incarnation,
        } => put_idle(out, at, *worker, *incarnation),
        Frame::Rest => at,
    }
}

/// Writes the bytes of a frame at the front of `out`, whose other bytes are unchanged. Returns how many bytes were written.
pub fn encode(frame: &Frame, out: &mut [u8]) -> usize
    requires { length (FrameBytes frame.now) ≤ length out.old }
    ensures written { out.new ≡ FrameBytes frame.now ++ drop (length (FrameBytes frame.now)) out.old }
    ensures length { result ≡ length (FrameBytes frame.now) }
{
    let len = payload_len(frame) as u16;
    let at = put_header(out, frame.kind(), len);
    put_payload(out, at, frame)
}
