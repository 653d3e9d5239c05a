//! The reader of a stream of frames, which is cut into pieces anywhere.

ghost use Rattle.std.specs.Prelude.{◌≡◌, ◌≢◌, ◌+◌, ◌≤◌, ◌++◌, List, [], length, take, min, vec_len, vec_capacity, MatchOption, MatchResult, OnErr, IfOk, Ok, Err};
ghost use Rattle.frames.specs.declared.frame.Frame.{Frame};
ghost use Rattle.frames.specs.declared.fault.FrameFault.{FrameFault};
ghost use Rattle.frames.specs.Stream.{Open, Fault, Ends, Begins, BeginsNoFrame, BeginsWith, Splits, StopsBefore, Stream, Within, Failed, TakesPiece, joined};
ghost use Rattle.frames.specs.MemoryNeeds.{MayNeedMemory};
ghost use Rattle.frames.specs.inner.Buffer.{missing, Fills};

use crate::decoder::frame_of;
use crate::fault::FrameFault;
use crate::frame::Frame;
use crate::header::{HEADER_LEN, Header, read_header};
use std::alloc::{AllocError, Global};
use std::marker::Model;

/// The length of the longest frame in bytes.
const LONGEST: usize = 4037;

/// A reader of a stream of bytes, cut into pieces anywhere: it makes frames of them. Its buffer is reserved once, and holds at most one
/// incomplete frame between two calls.
#[derive(Debug, Drop)]
pub struct Reader {
    /// The bytes of the frame that is not complete yet.
    buffer: Vec<u8>,
    /// The fault that was found in the stream, if there is one.
    fault: Option<FrameFault>,
}

impl Model for Reader {
    ghost use Rattle.frames.specs.Stream.{Progress};

    ghost Value = { Progress };

    ghost use Rattle.frames.specs.Readers.{progress_of};
    ghost use Rattle.frames.specs.inner.Readers.{IsReader};

    ghost view = { λ r. progress_of r.fault r.buffer.items };

    ghost invariant = { λ r. IsReader r.fault r.buffer };
}

impl Reader {
    /// A reader that has read no byte.
    pub fn new(alloc: Global) -> Result<Reader, AllocError>
        ensures { IfOk result (λ r. r ≡ Within []) }
    {
        let buffer = Vec::with_capacity(alloc, LONGEST)?;
        Ok(Reader {
            buffer,
            fault: None,
        })
    }

    /// Reads the next piece of the stream, and appends each frame that is complete now. Faults 1 to 4 are returned as soon as their byte
    /// has come, after the frames before it were appended; each later call returns the same fault and appends nothing. After `NoMemory` the
    /// reader and `frames` are unchanged, and the piece was not read.
    #[tactic(auto, using(crate::proofs::ReaderLemmas::takes_within))]
    pub fn feed(
        &mut self,
        alloc: Global,
        piece: &[u8],
        frames: &mut Vec<Frame>,
    ) -> Result<(), FrameFault>
        ensures taken { result ≢ Err FrameFault.NoMemory → TakesPiece self.old piece.now frames.old.items frames.new.items result self.new }
        ensures failed { (fault : FrameFault) → self.old ≡ Failed fault → (result ≡ Err fault) × (self.new ≡ self.old) × (frames.new.items ≡ frames.old.items) }
        ensures no_memory { result ≡ Err FrameFault.NoMemory → (self.new ≡ self.old) × (frames.new.items ≡ frames.old.items) }
    {
        if let Some(fault) = self.fault {
            return Err(fault);
        }
        let begun = self.buffer.len();
        let had = frames.len();
        match read(alloc, &mut self.buffer, piece, frames) {
            Ok(()) => Ok(()),
            Err(FrameFault::NoMemory) => {
                self.buffer.truncate(begun);
                frames.truncate(had);
                Err(FrameFault::NoMemory)
            }
            Err(fault) => {
                self.fault = Some(fault);
                Err(fault)
            }
        }
    }
}

/// Reads a stream that was cut into these pieces, and appends its frames. A fault ends the stream; after `NoMemory` the frames of the
/// earlier pieces have been appended.
pub fn read_pieces(
    alloc: Global,
    pieces: &[Vec<u8>],
    frames: &mut Vec<Frame>,
) -> Result<(), FrameFault>
    ensures stream { (new : List Frame) × (frames.new.items ≡ frames.old.items ++ new) × MatchResult result
        (λ _. Stream (joined pieces.now) new Open)
        (λ fault. fault ≢ FrameFault.NoMemory → Stream (joined pieces.now) new (Fault fault)) }
    ensures memory { result ≡ Err FrameFault.NoMemory → StopsBefore pieces.now frames.old.items frames.new.items }
{
    let mut reader = Reader::new(alloc)?;
    for piece in pieces {
        reader.feed(alloc, piece, frames)?;
    }
    Ok(())
}

/// Reads the frame at the front of `bytes`. Returns it and the bytes after it; `None` if the frame is not complete.
fn first(alloc: Global, bytes: &[u8]) -> Result<Option<(Frame, &[u8])>, FrameFault>
    ensures first { MatchResult result
        (λ found. MatchOption found (Ends bytes.now Open) (λ r. Begins bytes.now r.0 r.1.now))
        (λ fault. fault ≢ FrameFault.NoMemory → Ends bytes.now (Fault fault)) }
    ensures room { result ≡ Err FrameFault.NoMemory → MayNeedMemory bytes.now }
{
    match read_header(bytes) {
        Header::Short => Ok(None),
        Header::Wrong(fault) => Err(fault),
        Header::Whole(kind, len) => {
            if bytes.len() - HEADER_LEN < len {
                return Ok(None);
            }
            let (_, behind) = bytes.split_at(HEADER_LEN);
            let (payload, rest) = behind.split_at(len);
            let frame = frame_of(alloc, kind, payload)?;
            Ok(Some((frame, rest)))
        }
    }
}

/// Reads the first frame of `bytes`; `None` if they begin with no complete frame with right fields. The bytes after it are not read. Memory
/// can be refused only if the payload is complete and has literals or a chunk.
#[tactic(auto, using(crate::proofs::Streams::ends_begin_none))]
pub fn first_frame(alloc: Global, bytes: &[u8]) -> Result<Option<Frame>, AllocError>
    ensures first { IfOk result (λ found. MatchOption found (BeginsNoFrame bytes.now) (BeginsWith bytes.now)) }
    ensures room { OnErr result (MayNeedMemory bytes.now) }
{
    match first(alloc, bytes) {
        Ok(Some((frame, _))) => Ok(Some(frame)),
        Ok(None) => Ok(None),
        Err(fault) if fault == FrameFault::NoMemory => Err(AllocError),
        Err(_fault) => Ok(None),
    }
}

/// The number of bytes by which the header is incomplete; if it is complete, the number by which the payload is; 0 if the header has a
/// fault.
fn missing_bytes(bytes: &[u8]) -> usize
    ensures { result ≡ missing bytes.now }
{
    match read_header(bytes) {
        Header::Short => HEADER_LEN - bytes.len(),
        Header::Wrong(_) => 0,
        Header::Whole(_, len) => len.saturating_sub(bytes.len() - HEADER_LEN),
    }
}

/// Appends to the buffer as many of the piece's first bytes as its header or its payload lacks, or
/// the whole piece if it has fewer. Returns how many.
fn top_up(buffer: &mut Vec<u8>, piece: &[u8]) -> usize
    requires { vec_len buffer.old + missing buffer.old.items ≤ vec_capacity buffer.old }
    ensures now { buffer.new.items ≡ buffer.old.items ++ take result piece.now }
    ensures count { result ≡ min (missing buffer.old.items) (length piece.now) }
    ensures capacity { vec_capacity buffer.old ≤ vec_capacity buffer.new }
{
    let count = missing_bytes(buffer).min(piece.len());
    buffer.extend_from_slice(&piece[..count]).unwrap();
    count
}

/// Fills the buffer up to the end of its frame, in two steps: only the complete header tells how
/// long the payload is. Returns how many bytes of the piece were used.
fn fill(buffer: &mut Vec<u8>, piece: &[u8]) -> usize
    requires open { Ends buffer.old.items Open }
    requires room { 4037 ≤ vec_capacity buffer.old }
    ensures fills { Fills buffer.old.items piece.now buffer.new.items result }
    ensures room { 4037 ≤ vec_capacity buffer.new }
{
    let head = top_up(buffer, piece);
    let (_, rest) = piece.split_at(head);
    let payload = top_up(buffer, rest);
    head + payload
}

/// Goes on with the frame in the buffer. If the frame is complete now, returns it with the bytes of the piece after it; None if it is not.
/// The bytes that the buffer had before stay at its front, so that `feed` can truncate it to these.
fn continue_frame<'a>(
    alloc: Global,
    buffer: &mut Vec<u8>,
    piece: &'a [u8],
) -> Result<Option<(Frame, &'a [u8])>, FrameFault>
    requires open { Ends buffer.old.items Open }
    requires room { 4037 ≤ vec_capacity buffer.old }
    ensures found { MatchResult result
        (λ found. MatchOption found
        ((buffer.new.items ≡ buffer.old.items ++ piece.now) × Ends buffer.new.items Open)
        (λ r. Begins (buffer.old.items ++ piece.now) r.0 r.1.now))
        (λ fault. fault ≢ FrameFault.NoMemory → Ends (buffer.old.items ++ piece.now) (Fault fault)) }
    ensures front { take (length buffer.old.items) buffer.new.items ≡ buffer.old.items }
    ensures room { 4037 ≤ vec_capacity buffer.new }
{
    let taken = fill(buffer, piece);
    match first(alloc, buffer)? {
        None => Ok(None),
        Some((frame, _)) => {
            let (_, rest) = piece.split_at(taken);
            Ok(Some((frame, rest)))
        }
    }
}

/// Appends the complete frames at the front of the piece to `frames`. Returns the bytes after them.
fn read_whole_frames<'a>(
    alloc: Global,
    piece: &'a [u8],
    frames: &mut Vec<Frame>,
) -> Result<&'a [u8], FrameFault>
    ensures { (new : List Frame) × (frames.new.items ≡ frames.old.items ++ new) × MatchResult result
        (λ rest. Splits piece.now new rest.now × Ends rest.now Open)
        (λ fault. fault ≢ FrameFault.NoMemory → Stream piece.now new (Fault fault)) }
{
    let mut rest = piece;
    loop {
        match first(alloc, rest)? {
            None => return Ok(rest),
            Some((frame, after)) => {
                frames.push(frame)?;
                rest = after;
            }
        }
    }
}

/// Reads a piece that begins with a new frame, and appends its complete frames. The bytes after these overwrite the buffer; after an `Err`
/// the buffer is unchanged.
fn read_unbuffered(
    alloc: Global,
    buffer: &mut Vec<u8>,
    piece: &[u8],
    frames: &mut Vec<Frame>,
) -> Result<(), FrameFault>
    requires { 4037 ≤ vec_capacity buffer.old }
    ensures frames { (new : List Frame) × (frames.new.items ≡ frames.old.items ++ new) × MatchResult result
        (λ _. Splits piece.now new buffer.new.items × Ends buffer.new.items Open)
        (λ fault. fault ≢ FrameFault.NoMemory → Stream piece.now new (Fault fault)) }
    ensures kept { OnErr result (buffer.new.items ≡ buffer.old.items) }
    ensures room { 4037 ≤ vec_capacity buffer.new }
{
    let rest = read_whole_frames(alloc, piece, frames)?;
    buffer.clear();
    buffer.extend_from_slice(rest).unwrap();
    Ok(())
}

/// Reads a piece that continues the bytes of the buffer, and appends the frames that are complete now. After an `Err` the buffer begins
/// with the bytes that it had before.
fn read(
    alloc: Global,
    buffer: &mut Vec<u8>,
    piece: &[u8],
    frames: &mut Vec<Frame>,
) -> Result<(), FrameFault>
    requires open { Ends buffer.old.items Open }
    requires room { 4037 ≤ vec_capacity buffer.old }
    ensures frames { (new : List Frame) × (frames.new.items ≡ frames.old.items ++ new) × MatchResult result
        (λ _. Splits (buffer.old.items ++ piece.now) new buffer.new.items × Ends buffer.new.items Open)
        (λ fault. fault ≢ FrameFault.NoMemory → Stream (buffer.old.items ++ piece.now) new (Fault fault)) }
    ensures front { OnErr result (take (length buffer.old.items) buffer.new.items ≡ buffer.old.items) }
    ensures room { 4037 ≤ vec_capacity buffer.new }
{
    if buffer.is_empty() {
        return read_unbuffered(alloc, buffer, piece, frames);
    }
    match continue_frame(alloc, buffer, piece)? {
        None => Ok(()),
        Some((frame, rest)) => {
            frames.push(frame)?;
            read_unbuffered(alloc, buffer, rest, frames)
        }
    }
}
