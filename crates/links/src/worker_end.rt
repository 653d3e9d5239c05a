//! The worker's end of its link, over TCP on the loopback device.

ghost use Rattle.std.specs.Prelude.{◌≡◌};
ghost use Rattle.links.specs.Linked.{stream_of};

use crate::carrier::Carrier;
use crate::link::{End, LinkFault};
use crate::stream::{connect, read_next, write_whole};
use std::io;
use std::io::{Read, Write};
use std::net::{Ipv4Addr, Net, OpenStream, SocketAddr};

/// The worker's end of its link, over a stream. The coordinator's end is in another process: its calls are refused.
#[derive(Drop)]
pub struct WorkerEnd<S> {
    stream: S,
}

impl<S> WorkerEnd<S> {
    /// The worker's end over this stream.
    pub fn new(stream: S) -> WorkerEnd<S>
        ensures { stream_of result ≡ stream }
    {
        WorkerEnd { stream }
    }

    /// Connects to a port of 127.0.0.1, with `TCP_NODELAY`. The operating system decides whether it is connected, and to whom: nothing is
    /// promised of either. An error is that of the connection.
    pub fn connect<R: Net<Stream = S>>(net: &R, port: u16) -> io::Result<WorkerEnd<S>>
    where
        S: Drop + OpenStream,
    {
        let stream = connect(net, SocketAddr::from((Ipv4Addr::LOCALHOST, port)))?;
        Ok(WorkerEnd::new(stream))
    }
}

impl<S: Read + Write> Carrier for WorkerEnd<S> {
    /// Writes all bytes to the stream; the coordinator's end is not here, and refuses.
    fn carry(&mut self, from: End, bytes: &[u8]) -> Result<(), LinkFault> {
        match from {
            End::Worker(_) => write_whole(&mut self.stream, bytes),
            End::Coordinator(_) => Err(LinkFault),
        }
    }

    /// Reads what has come from the coordinator, and waits if nothing has.
    fn fetch(&mut self, at: End, room: &mut [u8]) -> Result<usize, LinkFault> {
        match at {
            End::Worker(_) => read_next(&mut self.stream, room),
            End::Coordinator(_) => Err(LinkFault),
        }
    }
}
