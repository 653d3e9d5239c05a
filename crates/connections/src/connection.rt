//! One connection, which is read and written without blocking.

ghost use Rattle.std.specs.Prelude.{◌≤◌, length, IfOk, IfSome, OnErr, OnOk};
ghost use Rattle.std.specs.Io.KnownBytes.{Appends, Keeps};
ghost use Rattle.connections.specs.inner.Known.{Reads};

use links::LinkFault;
use std::io;
use std::io::{ErrorKind, Read, Write};

/// A connection: a non-blocking stream, and what mio reported of it.
#[derive(Drop)]
pub(crate) struct Connection<S> {
    /// The non-blocking stream.
    pub(crate) stream: S,
    /// Whether a read may find bytes or the end of the stream.
    pub(crate) is_ready: bool,
    /// Whether mio reported that the peer hung up, or an error.
    pub(crate) has_hung_up: bool,
}

/// Reads once from a stream. Returns how many bytes; `None` if nothing has come yet (`WouldBlock`). A read that a signal interrupted is
/// tried again.
fn read_now<S: Read>(stream: &mut S, room: &mut [u8]) -> io::Result<Option<usize>>
    ensures within { IfOk result (λ found. IfSome found (λ count. count ≤ length room.new)) }
    ensures bytes { IfOk result (λ found. Reads (S.remaining stream.old) found room.new (S.remaining stream.new)) }
    ensures err { OnErr result (Keeps (S.remaining stream.old) (S.remaining stream.new)) }
{
    for _ in 0..u64::MAX {
        match stream.read(room) {
            Ok(count) => return Ok(Some(count)),
            Err(error) if error.kind() == ErrorKind::WouldBlock => return Ok(None),
            Err(error) if error.kind() == ErrorKind::Interrupted => {}
            Err(error) => return Err(error),
        }
    }
    Ok(None)
}

impl<S: Read> Connection<S> {
    /// Reads once. Returns how many bytes; `None` if nothing has come yet. 0 bytes mean that the connection has ended, or failed.
    ///
    /// mio is edge-triggered: read until WouldBlock or a short read. A hang-up is not reported again, so it is remembered, and after one
    /// the stream is read until it answers 0 bytes.
    pub(crate) fn read(&mut self, room: &mut [u8]) -> Option<usize>
        ensures within { IfSome result (λ count. count ≤ length room.new) }
        ensures bytes { Reads (S.remaining self.old.stream) result room.new (S.remaining self.new.stream) }
    {
        match read_now(&mut self.stream, room) {
            Ok(Some(count)) => {
                self.is_ready = 0 < count && (count == room.len() || self.has_hung_up);
                Some(count)
            }
            Ok(None) => {
                self.is_ready = false;
                None
            }
            Err(_) => {
                self.is_ready = false;
                Some(0)
            }
        }
    }
}

impl<S: Write> Connection<S> {
    /// Writes all bytes without blocking. It is an error if the socket's buffer has no room for them.
    pub(crate) fn write(&mut self, bytes: &[u8]) -> Result<(), LinkFault>
        ensures { OnOk result (Appends (S.contents self.old.stream) (S.contents self.new.stream) bytes.now) }
    {
        match self.stream.write_all(bytes) {
            Ok(()) => Ok(()),
            Err(_) => Err(LinkFault),
        }
    }
}
