//! Reads and writes of sockets, for the carriers over TCP.

ghost use Rattle.std.specs.Prelude.{◌≤◌, length, IfOk};

use crate::link::LinkFault;
use std::io;
use std::io::{ErrorKind, Read, Write};
use std::net::{Net, OpenStream, SocketAddr, TcpStream};

/// Connects to an address, with `TCP_NODELAY`: a small packet does not wait for the next. An error is that of the connection.
pub(crate) fn connect<R: Net>(net: &R, at: SocketAddr) -> io::Result<R::Stream> {
    let stream = TcpStream::connect(net, at)?;
    stream.set_nodelay(true)?;
    Ok(stream)
}

/// Reads what comes next into the room. Returns how many bytes; 0 bytes mean the end. A read that a signal interrupted is tried again.
pub(crate) fn read_next<S: Read>(stream: &mut S, room: &mut [u8]) -> Result<usize, LinkFault>
    ensures { IfOk result (λ n. n ≤ length room.new) }
{
    for _ in 0..u64::MAX {
        match stream.read(room) {
            Ok(count) => return Ok(count),
            Err(error) if error.kind() == ErrorKind::Interrupted => {}
            Err(_) => return Err(LinkFault),
        }
    }
    Err(LinkFault)
}

/// Writes all bytes; `write_all` tries again by itself. Any other error of the stream is a refusal.
pub(crate) fn write_whole<S: Write>(stream: &mut S, bytes: &[u8]) -> Result<(), LinkFault> {
    stream.write_all(bytes).map_err(|_| LinkFault)
}
