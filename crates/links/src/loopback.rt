//! Links over TCP on the loopback device.

ghost use Rattle.std.specs.Prelude.{◌≡◌, IfOk};
ghost use Rattle.links.specs.Linked.{pair_count};

use crate::carrier::Carrier;
use crate::link::{End, LinkFault};
use crate::stream::{connect, read_next, write_whole};
use std::alloc::Global;
use std::io;
use std::io::{Read, Write};
use std::net::{Ipv4Addr, Net, OpenListener, OpenStream, SocketAddr, TcpListener};

/// The two ends of one worker's link.
#[derive(Drop)]
struct Pair<S> {
    coordinator: S,
    worker: S,
}

/// The links of workers 1 to n, over sockets with both ends in this process. A call at the link of another worker is refused.
#[derive(Drop)]
pub struct Loopback<S> {
    pairs: Vec<Pair<S>>,
}

/// The greatest number of connections that are accepted until the worker's own comes.
const TRIES: u32 = 128;

/// Accepts a connection. Returns it, with `TCP_NODELAY`, if it comes from the address `own`; else drops it and returns None.
fn accept_own<R: Net>(listener: &R::Listener, own: SocketAddr) -> io::Result<Option<R::Stream>> {
    let (stream, from) = listener.accept()?;
    if from != own {
        return Ok(None);
    }
    stream.set_nodelay(true)?;
    Ok(Some(stream))
}

/// Accepts connections until the worker's own comes, from the address `own`. Those of other processes are dropped; after `TRIES` of them it
/// is an error.
fn await_own<R: Net>(listener: &R::Listener, own: SocketAddr) -> io::Result<R::Stream> {
    for _ in 0..TRIES {
        if let Some(stream) = accept_own::<R>(listener, own)? {
            return Ok(stream);
        }
    }
    Err(io::Error::from(io::ErrorKind::ConnectionRefused))
}

/// Connects a worker to the listener at the address `at`, and accepts its connection.
fn connect_pair<R: Net>(
    net: &R,
    listener: &R::Listener,
    at: SocketAddr,
) -> io::Result<Pair<R::Stream>> {
    let worker = connect(net, at)?;
    let own = worker.local_addr()?;
    let coordinator = await_own::<R>(listener, own)?;
    Ok(Pair {
        coordinator,
        worker,
    })
}

impl<S> Loopback<S> {
    /// Opens a listener at a free port of 127.0.0.1, and connects workers 1 to `workers` to it. The operating system decides whether it
    /// can, and what the connections carry. An error is that of the listener or of a connection, or memory was refused.
    pub fn open<R: Net<Stream = S>>(net: &R, alloc: Global, workers: u32) -> io::Result<Loopback<S>>
    where
        S: Drop,
        ensures { IfOk result (λ l. pair_count l ≡ workers) }
    {
        let listener = TcpListener::bind(net, SocketAddr::from((Ipv4Addr::LOCALHOST, 0)))?;
        let at = listener.local_addr()?;
        let mut pairs = Vec::new(alloc);
        for _ in 0..workers {
            pairs.push(connect_pair(net, &listener, at)?)?;
        }
        Ok(Loopback { pairs })
    }

    /// The socket of an end of a link; None if there is no worker of its number.
    fn end(&mut self, end: End) -> Option<&mut S> {
        let (End::Coordinator(w) | End::Worker(w)) = end;
        let place = w.checked_sub(1)?;
        let pair = self.pairs.get_mut(place as usize)?;
        match end {
            End::Coordinator(_) => Some(&mut pair.coordinator),
            End::Worker(_) => Some(&mut pair.worker),
        }
    }
}

impl<S: Read + Write> Carrier for Loopback<S> {
    /// Writes all bytes to the socket of this end.
    fn carry(&mut self, from: End, bytes: &[u8]) -> Result<(), LinkFault> {
        let stream = self.end(from).ok_or(LinkFault)?;
        write_whole(stream, bytes)
    }

    /// Reads what has come to the socket of this end, and waits if nothing has.
    fn fetch(&mut self, at: End, room: &mut [u8]) -> Result<usize, LinkFault> {
        let stream = self.end(at).ok_or(LinkFault)?;
        read_next(stream, room)
    }
}
