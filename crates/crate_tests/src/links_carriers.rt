//! Links: what is counted, and carriers that refuse, end or lie.

use links::{
    Bytewise, Carrier, CoordinatorEnds, Counted, End, LinkFault, Links, Loopback, Memory,
    RefusesAll, RefusesAt, Script, WorkerEnd,
};
use std::alloc::Global;
use std::io;
use std::io::{ErrorKind, Read, Write};
use std::net::{Ipv4Addr, Net, OpenListener, SocketAddr, TcpListener};
use std::process::Abort;
use std::test::Fail;

/// A stream that hands in its bytes one by one, the greatest first, and is interrupted before each.
#[derive(Drop)]
struct Interrupted {
    left: u8,
    is_next: bool,
}

impl Read for Interrupted {
    fn read(&mut self, room: &mut [u8]) -> io::Result<usize> {
        self.is_next = !self.is_next;
        if self.is_next {
            return Err(io::Error::from(ErrorKind::Interrupted));
        }
        if self.left == 0 || room.is_empty() {
            return Ok(0);
        }
        room[0] = self.left;
        self.left -= 1;
        Ok(1)
    }
}

impl Write for Interrupted {
    fn write(&mut self, bytes: &[u8]) -> io::Result<usize> {
        Ok(bytes.len())
    }

    fn flush(&mut self) -> io::Result<()> {
        Ok(())
    }
}

/// Bytes there and back at workers 1 to `workers`; answers the calls and the refusals so far.
fn play<L: Links>(links: &mut L, workers: u32) -> (u64, u64) {
    let mut room = [0u8; 4037];
    for w in 1..=workers {
        let _ = links.send(End::Coordinator(w), b"ping");
        let _ = links.receive(End::Worker(w), &mut room);
        let _ = links.send(End::Worker(w), b"pong");
        let _ = links.receive(End::Coordinator(w), &mut room);
    }
    (links.calls(), links.refusals())
}

/// What arrives at an end, in one receive into room for so many bytes, at most eight.
fn hears<L: Links>(
    rt: &impl Abort,
    links: &mut L,
    at: End,
    size: usize,
    wanted: Result<&[u8], LinkFault>,
) {
    let mut room = [0u8; 8];
    assert!(rt; size <= 8);
    match links.receive(at, &mut room[..size]) {
        Ok(count) => assert!(rt; count <= 8 && Ok(&room[..count]) == wanted),
        Err(fault) => assert!(rt; Err(fault) == wanted),
    }
}

fn sends<L: Links>(
    rt: &impl Abort,
    links: &mut L,
    from: End,
    bytes: &[u8],
    wanted: Result<(), LinkFault>,
) {
    assert!(rt; links.send(from, bytes) == wanted);
}

#[test]
fn in_memory(rt: HostRuntime) -> Result<(), Fail> {
    let mut links = Counted::new(Memory::new(rt.alloc(), 3)?);
    assert_eq!(rt; play(&mut links, 3), (12, 0));
    // There is no fourth worker.
    assert_eq!(rt; play(&mut links, 4), (28, 4));
    Ok(())
}

#[test]
fn over_sockets(rt: HostRuntime) -> Result<(), Fail> {
    let mut links = Counted::new(Loopback::open(&rt, rt.alloc(), 64)?);
    assert_eq!(rt; play(&mut links, 64), (256, 0));
    sends(&rt, &mut links, End::Coordinator(1), b"abc", Ok(()));
    hears(&rt, &mut links, End::Worker(1), 3, Ok(b"abc"));
    sends(
        &rt,
        &mut links,
        End::Coordinator(65),
        b"abc",
        Err(LinkFault),
    );
    assert_eq!(rt; (links.calls(), links.refusals()), (259, 1));
    Ok(())
}

#[test]
fn one_call_is_refused(rt: HostRuntime) -> Result<(), Fail> {
    for number in 1..=13 {
        let carrier = RefusesAt {
            carrier: Memory::new(rt.alloc(), 3)?,
            number,
        };
        let refusals = if number <= 12 { 1 } else { 0 };
        assert_eq!(rt; play(&mut Counted::new(carrier), 3), (12, refusals));
    }
    assert_eq!(rt; play(&mut Counted::new(RefusesAll), 3), (12, 12));
    Ok(())
}

#[test]
fn one_byte_comes_a_call(rt: HostRuntime) -> Result<(), Fail> {
    let mut links = Counted::new(Bytewise {
        carrier: Memory::new(rt.alloc(), 1)?,
    });
    sends(&rt, &mut links, End::Coordinator(1), b"ab", Ok(()));
    hears(&rt, &mut links, End::Worker(1), 8, Ok(b"a"));
    hears(&rt, &mut links, End::Worker(1), 0, Ok(b""));
    hears(&rt, &mut links, End::Worker(1), 8, Ok(b"b"));
    hears(&rt, &mut links, End::Worker(1), 8, Ok(b""));
    Ok(())
}

#[test]
fn hands_in_what_nobody_sent(rt: HostRuntime) -> Result<(), Fail> {
    let mut links = Counted::new(Script::new(rt.alloc(), b"abc")?);
    hears(&rt, &mut links, End::Worker(7), 2, Ok(b"ab"));
    sends(&rt, &mut links, End::Coordinator(1), b"xy", Ok(()));
    hears(&rt, &mut links, End::Worker(1), 2, Ok(b"c"));
    hears(&rt, &mut links, End::Coordinator(1), 2, Ok(b""));
    assert_eq!(rt; links.carrier().sent(), b"xy".as_slice());
    Ok(())
}

/// Worker 2 of two has linked, and three bytes of it were read.
fn served(rt: &impl Abort, alloc: Global) -> CoordinatorEnds<Interrupted> {
    let mut served = CoordinatorEnds::new(alloc, 2).expect(rt, "memory");
    assert!(rt; served.lacks(2) && !served.lacks(0) && !served.lacks(3));
    let stream = Interrupted {
        left: 1,
        is_next: false,
    };
    let read = Vec::from_slice(alloc, b"abc").expect(rt, "memory");
    assert!(rt; served.link(2, stream, read).is_ok());
    assert!(rt; !served.lacks(2) && served.lacks(1) && !served.is_complete());
    served
}

#[test]
fn what_was_read_before_comes_first(rt: HostRuntime) {
    let mut links = Counted::new(served(&rt, rt.alloc()));
    hears(&rt, &mut links, End::Coordinator(2), 2, Ok(b"ab"));
    hears(&rt, &mut links, End::Coordinator(2), 2, Ok(b"c"));
    hears(&rt, &mut links, End::Coordinator(2), 2, Ok(b"\x01"));
    hears(&rt, &mut links, End::Coordinator(2), 2, Ok(b""));
    sends(&rt, &mut links, End::Coordinator(2), b"ab", Ok(()));
    // Worker 1 never linked, and there is no worker 3.
    hears(&rt, &mut links, End::Coordinator(1), 2, Ok(b""));
    sends(&rt, &mut links, End::Coordinator(1), b"ab", Err(LinkFault));
    hears(&rt, &mut links, End::Coordinator(3), 2, Err(LinkFault));
    hears(&rt, &mut links, End::Worker(2), 2, Err(LinkFault));
}

/// The two ends of one link, each in a carrier of its own.
fn two_ends<R: Net>(
    net: &R,
    alloc: Global,
) -> Result<(WorkerEnd<R::Stream>, CoordinatorEnds<R::Stream>), Fail> {
    let listener = TcpListener::bind(net, SocketAddr::from((Ipv4Addr::LOCALHOST, 0)))?;
    let worker = WorkerEnd::connect(net, listener.local_addr()?.port())?;
    let (stream, _) = listener.accept()?;
    let mut served = CoordinatorEnds::new(alloc, 1)?;
    let _ = served.link(1, stream, Vec::new(alloc));
    Ok((worker, served))
}

/// Four bytes come to the coordinator, and four to the worker.
fn converse<W: Links, C: Links>(
    worker: &mut W,
    coordinator: &mut C,
    room: &mut [u8; 8],
) -> Result<(), LinkFault> {
    worker.send(End::Worker(1), b"Idle")?;
    coordinator.receive(End::Coordinator(1), &mut room[..4])?;
    coordinator.send(End::Coordinator(1), b"Rest")?;
    worker.receive(End::Worker(1), &mut room[4..])?;
    Ok(())
}

#[test]
fn two_ends_over_a_socket(rt: HostRuntime) -> Result<(), Fail> {
    let mut room = [0u8; 8];
    let (joined, served) = two_ends(&rt, rt.alloc())?;
    let mut worker = Counted::new(joined);
    let mut coordinator = Counted::new(served);
    let said = converse(&mut worker, &mut coordinator, &mut room);
    assert_eq!(rt; said, Ok(()));
    assert_eq!(rt; room, *b"IdleRest");
    Ok(())
}
