//! The decoder: it makes a frame of its kind and payload.

ghost use Rattle.std.specs.Prelude.{◌≡◌, ◌≢◌, ◌≤◌, ◌<◌, ◌%◌, length, true, Err};
ghost use Rattle.frames.specs.WireFormat.{allows_length};
ghost use Rattle.frames.specs.MemoryNeeds.{NeedsMemory};
ghost use Rattle.frames.specs.inner.Decoder.{Decodes};

use crate::big_endian::{u32_at, u64_at};
use crate::chunk::Chunk;
use crate::fault::FrameFault;
use crate::fields::{answer_at, attempt_at, cube_of, ending_of, finding_of, worker_at};
use crate::frame::{Frame, Kind};
use std::alloc::Global;

/// Decodes the payload of a Task frame; `BadField` if its literals are not those of a cube.
fn task_of(alloc: Global, payload: &[u8]) -> Result<Frame, FrameFault>
    requires long { 24 ≤ length payload.now }
    requires fours { length payload.now % 4 ≡ 0 }
    ensures decodes { Decodes Kind.Task payload.now result }
    ensures room { result ≡ Err FrameFault.NoMemory → 24 < length payload.now }
{
    let (session, rest) = u64_at(payload);
    let (job, rest) = u64_at(rest);
    let (limit, rest) = u64_at(rest);
    let cube = cube_of(alloc, rest)?;
    Ok(Frame::Task {
        session,
        job,
        limit,
        cube,
    })
}

/// Decodes the payload of a Done frame; `BadField` if the worker's number is not from 1 to 64, or
/// the ending is unknown.
fn done_of(payload: &[u8]) -> Result<Frame, FrameFault>
    requires { length payload.now ≡ 33 }
    ensures decodes { Decodes Kind.Done payload.now result }
    ensures room { result ≢ Err FrameFault.NoMemory }
{
    let Some((attempt, rest)) = attempt_at(payload) else {
        return Err(FrameFault::BadField);
    };
    let Some(ending) = ending_of(rest) else {
        return Err(FrameFault::BadField);
    };
    Ok(Frame::Done { attempt, ending })
}

/// Decodes the payload of a Fetch frame; `BadField` if the worker's number is not from 1 to 64.
fn fetch_of(payload: &[u8]) -> Result<Frame, FrameFault>
    requires { length payload.now ≡ 32 }
    ensures decodes { Decodes Kind.Fetch payload.now result }
    ensures room { result ≢ Err FrameFault.NoMemory }
{
    let Some((attempt, rest)) = attempt_at(payload) else {
        return Err(FrameFault::BadField);
    };
    let (offset, _) = u32_at(rest);
    Ok(Frame::Fetch { attempt, offset })
}

/// Decodes the payload of a Piece frame; `BadField` if the worker's number is not from 1 to 64.
fn piece_of(alloc: Global, payload: &[u8]) -> Result<Frame, FrameFault>
    requires above { 33 ≤ length payload.now }
    requires below { length payload.now ≤ 4032 }
    ensures { Decodes Kind.Piece payload.now result }
{
    let Some((attempt, rest)) = attempt_at(payload) else {
        return Err(FrameFault::BadField);
    };
    let (offset, rest) = u32_at(rest);
    let bytes = Chunk::from_slice(alloc, rest)?;
    Ok(Frame::Piece {
        attempt,
        offset,
        bytes,
    })
}

/// Decodes the payload of a Verdict frame; `BadField` if its answer is unknown, or a proof's length
/// is 0.
fn verdict_of(payload: &[u8]) -> Result<Frame, FrameFault>
    requires { length payload.now ≡ 13 }
    ensures decodes { Decodes Kind.Verdict payload.now result }
    ensures room { result ≢ Err FrameFault.NoMemory }
{
    let (session, rest) = u64_at(payload);
    let Some(finding) = finding_of(rest) else {
        return Err(FrameFault::BadField);
    };
    Ok(Frame::Verdict { session, finding })
}

/// Decodes the payload of a Want frame; `BadField` if the worker's number is not from 1 to 64.
fn want_of(payload: &[u8]) -> Result<Frame, FrameFault>
    requires { length payload.now ≡ 16 }
    ensures decodes { Decodes Kind.Want payload.now result }
    ensures room { result ≢ Err FrameFault.NoMemory }
{
    let (session, rest) = u64_at(payload);
    let Some((worker, rest)) = worker_at(rest) else {
        return Err(FrameFault::BadField);
    };
    let (offset, _) = u32_at(rest);
    Ok(Frame::Want {
        session,
        worker,
        offset,
    })
}

/// Decodes the payload of a Part frame; `BadField` if its answer is unknown.
fn part_of(alloc: Global, payload: &[u8]) -> Result<Frame, FrameFault>
    requires above { 14 ≤ length payload.now }
    requires below { length payload.now ≤ 4013 }
    ensures { Decodes Kind.Part payload.now result }
{
    let (session, rest) = u64_at(payload);
    let Some((answer, rest)) = answer_at(rest) else {
        return Err(FrameFault::BadField);
    };
    let (offset, rest) = u32_at(rest);
    let bytes = Chunk::from_slice(alloc, rest)?;
    Ok(Frame::Part {
        session,
        answer,
        offset,
        bytes,
    })
}

/// Decodes the payload of an Idle frame; `BadField` if the worker's number is not from 1 to 64.
fn idle_of(payload: &[u8]) -> Result<Frame, FrameFault>
    requires { length payload.now ≡ 12 }
    ensures decodes { Decodes Kind.Idle payload.now result }
    ensures room { result ≢ Err FrameFault.NoMemory }
{
    let Some((worker, rest)) = worker_at(payload) else {
        return Err(FrameFault::BadField);
    };
    let (incarnation, _) = u64_at(rest);
    Ok(Frame::Idle {
        worker,
        incarnation,
    })
}

/// Decodes the empty payload of a Rest frame.
fn rest_of(payload: &[u8]) -> Result<Frame, FrameFault>
    requires { length payload.now ≡ 0 }
    ensures decodes { Decodes Kind.Rest payload.now result }
    ensures room { result ≢ Err FrameFault.NoMemory }
{
    Ok(Frame::Rest)
}

/// Decodes a payload of this kind, whose length is possible for the kind. `BadField` if a field of the payload is not right; `NoMemory`
/// only if the frame has literals or a chunk.
pub(crate) fn frame_of(alloc: Global, kind: Kind, payload: &[u8]) -> Result<Frame, FrameFault>
    requires { allows_length kind (length payload.now) ≡ true }
    ensures decodes { Decodes kind payload.now result }
    ensures room { result ≡ Err FrameFault.NoMemory → NeedsMemory kind (length payload.now) }
{
    match kind {
        Kind::Task => task_of(alloc, payload),
        Kind::Done => done_of(payload),
        Kind::Fetch => fetch_of(payload),
        Kind::Piece => piece_of(alloc, payload),
        Kind::Verdict => verdict_of(payload),
        Kind::Want => want_of(payload),
        Kind::Part => part_of(alloc, payload),
        Kind::Idle => idle_of(payload),
        Kind::Rest => rest_of(payload),
    }
}
