//! Accepts the connections of workers that are taken in rounds (`serve --rounds`).

use crate::files::no_memory;
use commands::refused;
use frames::{Frame, FrameFault, Reader};
use links::CoordinatorEnds;
use node_main::Refusal;
use std::alloc::{AllocError, Global};
use std::io::{ErrorKind, Read};
use std::net::{Net, OpenListener, OpenStream};

/// How many connections are accepted at most.
const CONNECTIONS: u32 = 128;

/// How many bytes an Idle frame has.
const IDLE: usize = 17;

/// Answers the number of the worker whose Idle is the first of these frames; `None` if that is
/// another frame, or there is none.
fn idle_of(frames: &[Frame]) -> Option<u32> {
    match frames.first() {
        Some(Frame::Idle { worker, .. }) => Some(worker.number()),
        _ => None,
    }
}

/// Makes the handshake of a connection: reads its first frame, appends its bytes to `early`, and
/// answers the number of the worker whose Idle it is. `None` if the connection ends or fails, at a
/// fault of its bytes, at another frame, or after 17 bytes without a frame.
fn greeting<S: Read>(
    alloc: Global,
    stream: &mut S,
    early: &mut Vec<u8>,
) -> Result<Option<u32>, AllocError> {
    let mut room = [0u8; IDLE];
    let mut reader = Reader::new(alloc)?;
    let mut frames = Vec::new(alloc);
    for _ in 0..u64::MAX {
        let left = IDLE.saturating_sub(early.len());
        match stream.read(&mut room[..left]) {
            Ok(0) => return Ok(None),
            Ok(count) => {
                early.extend_from_slice(&room[..count])?;
                match reader.feed(alloc, &room[..count], &mut frames) {
                    Ok(()) if frames.is_empty() => {}
                    Ok(()) => return Ok(idle_of(&frames)),
                    Err(FrameFault::NoMemory) => return Err(AllocError),
                    Err(_) => return Ok(None),
                }
            }
            Err(error) if error.kind() == ErrorKind::Interrupted => {}
            Err(_) => return Ok(None),
        }
    }
    Ok(None)
}

/// Makes the handshake of a connection, and links its worker if that is not linked yet; else the
/// connection is closed. It errs only if memory runs out.
fn link<S: Read + OpenStream + Drop>(
    alloc: Global,
    mut stream: S,
    served: &mut CoordinatorEnds<S>,
) -> Result<(), AllocError> {
    let mut early = Vec::new(alloc);
    if let Some(worker) = greeting(alloc, &mut stream, &mut early)? {
        if served.lacks(worker) && stream.set_nodelay(true).is_ok() {
            let _ = served.link(worker, stream, early);
        }
    }
    Ok(())
}

/// Accepts connections, 128 at most, until workers 1 to `workers` are linked, and answers the links so far. It errs if a connection cannot
/// be accepted or memory runs out.
pub(crate) fn accept_workers<N: Net>(
    alloc: Global,
    listener: &N::Listener,
    workers: u32,
) -> Result<CoordinatorEnds<N::Stream>, Refusal> {
    let mut served = CoordinatorEnds::new(alloc, workers).map_err(no_memory)?;
    for _ in 0..CONNECTIONS {
        if served.is_complete() {
            break;
        }
        match listener.accept() {
            Ok((stream, _)) => link(alloc, stream, &mut served).map_err(no_memory)?,
            // It was closed before it was accepted.
            Err(error) if error.kind() == ErrorKind::ConnectionAborted => {}
            Err(error) => return Err(refused(error, Refusal::Links)),
        }
    }
    Ok(served)
}
