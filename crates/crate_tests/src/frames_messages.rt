//! Frames as bytes, and streams of them in any cutting.

use dimacs::{Lit, Var};
use frames::{
    Attempt, Chunk, Cube, Ending, Finding, Frame, FrameFault, Reader, WorkerNumber, encode, len,
};
use std::alloc::Global;
use std::process::Abort;

const TASK: [u8; 37] = [
    0x43, 0x43, 0x01, 0x00, 0x20, 0, 0, 0, 0, 0, 0, 0, 1, 0, 0, 0, 0, 0, 0, 0, 2, 0, 0, 0, 0, 0, 0,
    0, 3, 0, 0, 0, 1, 0xFF, 0xFF, 0xFF, 0xFE,
];

const DONE: [u8; 38] = [
    0x43, 0x43, 0x02, 0x00, 0x21, 0, 0, 0, 0, 0, 0, 0, 1, 0, 0, 0, 0, 0, 0, 0, 1, 0, 0, 0, 1, 0, 0,
    0, 0, 0, 0, 0, 1, 2, 0, 0, 0, 2,
];

const WANT: [u8; 21] = [
    0x43, 0x43, 0x06, 0x00, 0x10, 0, 0, 0, 0, 0, 0, 0, 1, 0, 0, 0, 2, 0, 0, 0x0F, 0xA0,
];

const IDLE: [u8; 17] = [
    0x43, 0x43, 0x08, 0x00, 0x0C, 0, 0, 0, 64, 0, 0, 0, 0, 0, 0, 0, 7,
];

const REST: [u8; 5] = [0x43, 0x43, 0x09, 0, 0];

/// Whether a frame is spelled so.
fn is_spelled(frame: &Frame, bytes: &[u8]) -> bool {
    let mut out = [0; 4037];
    let size = len(frame);
    let written = encode(frame, &mut out);
    written == size && bytes == &out[..written]
}

/// Whether the frames' spellings, one after the other, are these bytes.
fn are_spelled(frames: &[Frame], bytes: &[u8]) -> bool {
    let mut rest = bytes;
    for frame in frames {
        let size = len(frame);
        if rest.len() < size || !is_spelled(frame, &rest[..size]) {
            return false;
        }
        rest = &rest[size..];
    }
    rest.is_empty()
}

/// Bytes come to a reader, which is to answer so.
fn feed(
    rt: &impl Abort,
    alloc: Global,
    reader: &mut Reader,
    bytes: &[u8],
    frames: &mut Vec<Frame>,
    wanted: Result<(), FrameFault>,
) {
    assert_eq!(rt; reader.feed(alloc, bytes, frames), wanted);
}

/// Reads a stream whose fault, if it has one, comes with its last byte, cut in two at a place.
fn read_in_two(
    rt: &impl Abort,
    alloc: Global,
    front: &[u8],
    back: &[u8],
    whole: &[u8],
    wanted: Result<(), FrameFault>,
) {
    let mut reader = Reader::new(alloc).expect(rt, "memory");
    let mut frames = Vec::new(alloc);
    let early = if back.is_empty() { wanted } else { Ok(()) };
    feed(rt, alloc, &mut reader, front, &mut frames, early);
    feed(rt, alloc, &mut reader, back, &mut frames, wanted);
    if wanted.is_err() {
        feed(rt, alloc, &mut reader, &REST, &mut frames, wanted);
    }
    assert!(rt; are_spelled(&frames, whole), "cut at {}", front.len());
}

/// The same byte by byte.
fn read_bytewise(
    rt: &impl Abort,
    alloc: Global,
    stream: &[u8],
    whole: &[u8],
    wanted: Result<(), FrameFault>,
) {
    let mut reader = Reader::new(alloc).expect(rt, "memory");
    let mut frames = Vec::new(alloc);
    let mut last = Ok(());
    for byte in stream {
        assert!(rt; last.is_ok());
        last = reader.feed(alloc, &[*byte], &mut frames);
    }
    assert_eq!(rt; last, wanted);
    assert!(rt; are_spelled(&frames, whole));
}

/// Reads it cut in two at each place, and byte by byte.
fn read_in_all_cuttings(
    rt: &impl Abort,
    alloc: Global,
    stream: &[u8],
    whole: &[u8],
    wanted: Result<(), FrameFault>,
) {
    for cut in 0..stream.len() + 1 {
        read_in_two(rt, alloc, &stream[..cut], &stream[cut..], whole, wanted);
    }
    read_bytewise(rt, alloc, stream, whole, wanted);
}

fn joined(rt: &impl Abort, alloc: Global, spellings: &[&[u8]]) -> Vec<u8> {
    let mut all = Vec::new(alloc);
    for spelling in spellings {
        all.extend_from_slice(spelling).expect(rt, "memory");
    }
    all
}

#[test]
fn frames_are_read_in_any_cutting(rt: HostRuntime) {
    let alloc = rt.alloc();
    for spelling in [&TASK[..], &DONE[..], &WANT[..], &IDLE[..], &REST[..]] {
        read_in_all_cuttings(&rt, alloc, spelling, spelling, Ok(()));
    }
    let all = joined(&rt, alloc, &[&REST, &WANT, &TASK, &DONE, &REST]);
    read_in_all_cuttings(&rt, alloc, &all, &all, Ok(()));
}

/// Bytes, and the fault that comes with the last of them.
const FAULTS: &[(&'static [u8], FrameFault)] = &[
    (b"D", FrameFault::BadMark),
    (b"CD", FrameFault::BadMark),
    (b"CC\0", FrameFault::BadKind),
    (b"CC\x0a", FrameFault::BadKind),
    (b"CC\x09\0\x01", FrameFault::BadLength),
    (b"CC\x01\0\x1a", FrameFault::BadLength),
    // Idle of no worker, and of worker 65.
    (
        b"CC\x08\0\x0c\0\0\0\0\0\0\0\0\0\0\0\x07",
        FrameFault::BadField,
    ),
    (
        b"CC\x08\0\x0c\0\0\0\x41\0\0\0\0\0\0\0\x07",
        FrameFault::BadField,
    ),
    // A task with a variable twice, and with the literal 0.
    (
        b"CC\x01\0\x20\0\0\0\0\0\0\0\x01\0\0\0\0\0\0\0\x02\0\0\0\0\0\0\0\x03\0\0\0\x01\xff\xff\xff\xff",
        FrameFault::BadField,
    ),
    (
        b"CC\x01\0\x20\0\0\0\0\0\0\0\x01\0\0\0\0\0\0\0\x02\0\0\0\0\0\0\0\x03\0\0\0\0\xff\xff\xff\xfe",
        FrameFault::BadField,
    ),
    // A limit with a length, and a fifth kind of answer.
    (
        b"CC\x02\0\x21\0\0\0\0\0\0\0\x01\0\0\0\0\0\0\0\x01\0\0\0\x01\0\0\0\0\0\0\0\x01\x03\0\0\0\x02",
        FrameFault::BadField,
    ),
    (
        b"CC\x02\0\x21\0\0\0\0\0\0\0\x01\0\0\0\0\0\0\0\x01\0\0\0\x01\0\0\0\0\0\0\0\x01\x05\0\0\0\x02",
        FrameFault::BadField,
    ),
];

#[test]
fn faults_come_with_their_byte(rt: HostRuntime) {
    let alloc = rt.alloc();
    for (bytes, fault) in FAULTS {
        read_in_all_cuttings(&rt, alloc, *bytes, &[], Err(*fault));
        let behind = joined(&rt, alloc, &[&REST, *bytes]);
        read_in_all_cuttings(&rt, alloc, &behind, &REST, Err(*fault));
    }
}

fn task(rt: &impl Abort, alloc: Global) -> Frame {
    let mut cube = Cube::new(alloc);
    for literal in [Lit::positive(Var::new(1)), Lit::negative(Var::new(2))] {
        assert!(rt; cube.takes(literal));
        cube.push(literal).expect(rt, "memory");
    }
    Frame::Task {
        session: 1,
        job: 2,
        limit: 3,
        cube,
    }
}

fn done() -> Frame {
    let attempt = Attempt {
        session: 1,
        job: 1,
        worker: WorkerNumber::new(1),
        incarnation: 1,
    };
    let ending = Ending::Decided(Finding::Assignment { length: 2 });
    Frame::Done { attempt, ending }
}

fn want() -> Frame {
    Frame::Want {
        session: 1,
        worker: WorkerNumber::new(2),
        offset: 4000,
    }
}

fn idle() -> Frame {
    Frame::Idle {
        worker: WorkerNumber::new(64),
        incarnation: 7,
    }
}

#[test]
fn fields_are_written_in_their_places(rt: HostRuntime) {
    assert!(rt; is_spelled(&task(&rt, rt.alloc()), &TASK));
    assert!(rt; is_spelled(&done(), &DONE));
    assert!(rt; is_spelled(&want(), &WANT));
    assert!(rt; is_spelled(&idle(), &IDLE));
    assert!(rt; is_spelled(&Frame::Rest, &REST));
}

#[test]
fn the_longest_frames_are_read(rt: HostRuntime) {
    let alloc = rt.alloc();
    let bytes = Chunk::from_vec(vec![in alloc; 7; 4000].expect(&rt, "memory"));
    let attempt = Attempt {
        session: u64::MAX,
        job: 0,
        worker: WorkerNumber::new(3),
        incarnation: 9,
    };
    let piece = Frame::Piece {
        attempt,
        offset: u32::MAX,
        bytes,
    };
    let mut stream = vec![in alloc; 0; 4037].expect(&rt, "memory");
    assert_eq!(rt; len(&piece), 4037);
    assert_eq!(rt; encode(&piece, &mut stream), 4037);
    read_in_all_cuttings(&rt, alloc, &stream, &stream, Ok(()));
}
