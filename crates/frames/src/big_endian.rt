//! Unsigned integers in big-endian order.

ghost use Rattle.std.specs.Prelude.{◌≡◌, ◌+◌, ◌≤◌, ◌<◌, ◌^◌, ◌++◌, length, drop};
ghost use Rattle.std.specs.Int.{w16, w32, w64, to_be_bytes};
ghost use Rattle.frames.specs.inner.Puts.{Puts};

use byteorder::{BigEndian, ByteOrder};

/// Reads the integer in the first four bytes. Returns it, and the bytes after it.
pub(crate) fn u32_at(bytes: &[u8]) -> (u32, &[u8])
    requires { 4 ≤ length bytes.now }
    ensures parts { bytes.now ≡ to_be_bytes w32 result.0 ++ result.1.now }
    ensures fits { result.0 < 2 ^ 32 }
    ensures rest { result.1.now ≡ drop 4 bytes.now }
{
    let (number, rest) = bytes.split_at(4);
    (BigEndian::read_u32(number), rest)
}

/// Reads the integer in the first eight bytes. Returns it, and the bytes after it.
pub(crate) fn u64_at(bytes: &[u8]) -> (u64, &[u8])
    requires { 8 ≤ length bytes.now }
    ensures parts { bytes.now ≡ to_be_bytes w64 result.0 ++ result.1.now }
    ensures fits { result.0 < 2 ^ 64 }
    ensures rest { result.1.now ≡ drop 8 bytes.now }
{
    let (number, rest) = bytes.split_at(8);
    (BigEndian::read_u64(number), rest)
}

/// Writes `number` at index `at`, in two bytes. Returns the index after it.
pub(crate) fn put_u16(out: &mut [u8], at: usize, number: u16) -> usize
    requires { at + 2 ≤ length out.old }
    ensures { Puts out.old at (to_be_bytes w16 number) out.new result }
{
    BigEndian::write_u16(&mut out[at..], number);
    at + 2
}

/// Writes `number` at index `at`, in four bytes. Returns the index after it.
pub(crate) fn put_u32(out: &mut [u8], at: usize, number: u32) -> usize
    requires { at + 4 ≤ length out.old }
    ensures { Puts out.old at (to_be_bytes w32 number) out.new result }
{
    BigEndian::write_u32(&mut out[at..], number);
    at + 4
}

/// Writes `number` at index `at`, in eight bytes. Returns the index after it.
pub(crate) fn put_u64(out: &mut [u8], at: usize, number: u64) -> usize
    requires { at + 8 ≤ length out.old }
    ensures { Puts out.old at (to_be_bytes w64 number) out.new result }
{
    BigEndian::write_u64(&mut out[at..], number);
    at + 8
}
