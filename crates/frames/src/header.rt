//! The header of a frame: mark, kind, and length of the payload.

ghost use Rattle.std.specs.Prelude.{◌≡◌};
ghost use Rattle.frames.specs.Stream.{from_length, from_kind, from_second_mark, header_of};

use crate::fault::FrameFault;
use crate::frame::Kind;
use byteorder::{BigEndian, ByteOrder};

/// The mark: each of the first two bytes of a frame.
pub(crate) const MARK: u8 = 0x43;

/// The length of a header in bytes: two marks, the kind, and two bytes of length.
pub(crate) const HEADER_LEN: usize = 5;

/// What the first bytes of a frame show of its header.
#[derive(Clone, Copy, Debug, PartialEq, Eq)]
pub enum Header {
    /// Fewer than five bytes, without a fault so far.
    Short,
    /// The header has this fault.
    Wrong(FrameFault),
    /// A complete header: the kind, and the length of the payload in bytes.
    Whole(Kind, usize),
}

/// Reads the header of these bytes from the left: a fault is found with its byte, before the later bytes have come.
pub(crate) fn read_header(bytes: &[u8]) -> Header
    ensures { result ≡ header_of bytes.now }
{
    match bytes {
        [] => Header::Short,
        [MARK, rest @ ..] => after_mark(rest),
        [_, ..] => Header::Wrong(FrameFault::BadMark),
    }
}

/// Reads the header from its second mark on, which is the first of these bytes.
fn after_mark(bytes: &[u8]) -> Header
    ensures { result ≡ from_second_mark bytes.now }
{
    match bytes {
        [] => Header::Short,
        [MARK, rest @ ..] => after_marks(rest),
        [_, ..] => Header::Wrong(FrameFault::BadMark),
    }
}

/// Reads the header from its kind on, which is the first of these bytes.
fn after_marks(bytes: &[u8]) -> Header
    ensures { result ≡ from_kind bytes.now }
{
    match bytes {
        [] => Header::Short,
        [number, rest @ ..] => match Kind::from_number(*number) {
            None => Header::Wrong(FrameFault::BadKind),
            Some(kind) => after_kind(kind, rest),
        },
    }
}

/// Reads the header from the payload's length on, the first two of these bytes; the kind is known.
fn after_kind(kind: Kind, bytes: &[u8]) -> Header
    ensures { result ≡ from_length kind bytes.now }
{
    match bytes {
        [] => Header::Short,
        [_] => Header::Short,
        [_, _, ..] => {
            let len = BigEndian::read_u16(bytes);
            if kind.allows_length(len) {
                Header::Whole(kind, len as usize)
            } else {
                Header::Wrong(FrameFault::BadLength)
            }
        }
    }
}
