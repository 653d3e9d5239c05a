//! Numbers as bytes, the lowest byte first.

ghost use Rattle.std.specs.Prelude.{◌≡◌};
ghost use Rattle.sealed_links.specs.Numbers.{bytes4, bytes8, number4, number8};

/// The eight bytes of a number.
pub(crate) fn bytes_of8(number: u64) -> [u8; 8]
    ensures { result ≡ bytes8 number }
{
    number.to_le_bytes()
}

/// The four bytes of a number.
pub(crate) fn bytes_of4(number: u32) -> [u8; 4]
    ensures { result ≡ bytes4 number }
{
    number.to_le_bytes()
}

/// The number of eight bytes.
pub(crate) fn number_of8(bytes: [u8; 8]) -> u64
    ensures { result ≡ number8 bytes }
{
    u64::from_le_bytes(bytes)
}

/// The number of four bytes.
pub(crate) fn number_of4(bytes: [u8; 4]) -> u32
    ensures { result ≡ number4 bytes }
{
    u32::from_le_bytes(bytes)
}
