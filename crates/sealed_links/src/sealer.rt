//! The end of a direction that makes records.

ghost use Rattle.std.specs.Prelude.{◌≡◌, ◌+◌, ◌<◌, ◌≤◌, ◌^◌, ◌↔◌, ◌++◌, length, OnOk, OnErr};
ghost use Rattle.sealed_links.specs.Numbers.{bytes4, bytes8};
ghost use Rattle.sealed_links.specs.Records.{sealed};

use crate::numbers::{bytes_of4, bytes_of8};
use crate::siphash::{TagKey, tag};
use std::alloc::AllocError;

/// The greatest number of bytes in a payload.
pub const MOST_BYTES: usize = 4096;

/// Why a record was not made.
#[derive(Clone, Copy, Debug, PartialEq, Eq)]
pub enum SealFault {
    /// Memory was refused.
    NoMemory,
    /// All numbers are used: 2^64 - 1 records were made.
    Exhausted,
}

/// Makes the records of one direction, each with a number of its own. It has no clone, so that no number is used twice.
#[derive(Drop)]
pub struct Sealer {
    pub(crate) key: TagKey,
    /// The number of the next record.
    pub(crate) number: u64,
}

/// Appends header and payload of a record. It is an error if memory is refused.
fn append_text(number: u64, payload: &[u8], out: &mut Vec<u8>) -> Result<(), AllocError>
    requires { length payload.now ≤ MOST_BYTES }
    ensures { OnOk result (out.new.items ≡ out.old.items ++ bytes8 number ++ bytes4 (length payload.now) ++ payload.now) }
{
    out.extend_from_slice(&bytes_of8(number))?;
    out.extend_from_slice(&bytes_of4(payload.len() as u32))?;
    out.extend_from_slice(payload)
}

/// Appends a record. It is an error if memory is refused.
fn append_record(
    key: &TagKey,
    number: u64,
    payload: &[u8],
    out: &mut Vec<u8>,
) -> Result<(), AllocError>
    requires { length payload.now ≤ MOST_BYTES }
    ensures { OnOk result (out.new.items ≡ out.old.items ++ sealed key.now number payload.now) }
{
    let start = out.as_slice().len();
    append_text(number, payload, out)?;
    let tag = tag(key, &out[start..]);
    out.extend_from_slice(&tag)?;
    Ok(())
}

impl Sealer {
    /// The end that makes records under this key, from number 0 on.
    pub fn new(key: TagKey) -> Sealer
        ensures key { result.key ≡ key }
        ensures number { result.number ≡ 0 }
    {
        Sealer { key, number: 0 }
    }

    /// Appends the next record, with this payload. After a fault `out` may have a part of the record at its end, and the number is not
    /// used.
    pub fn seal(&mut self, payload: &[u8], out: &mut Vec<u8>) -> Result<(), SealFault>
        requires { length payload.now ≤ MOST_BYTES }
        ensures record { OnOk result (out.new.items ≡ out.old.items ++ sealed self.old.key self.old.number payload.now) }
        ensures next { OnOk result (self.new ≡ record self.old { number = self.old.number + 1 }) }
        ensures few { OnOk result (self.old.number + 1 < 2 ^ 64) }
        ensures exhausted { (result ≡ Err SealFault.Exhausted) ↔ (self.old.number + 1 ≡ 2 ^ 64) }
        ensures err { OnErr result (self.new ≡ self.old) }
    {
        let Some(next) = self.number.checked_add(1) else {
            return Err(SealFault::Exhausted);
        };
        match append_record(&self.key, self.number, payload, out) {
            Ok(()) => {
                self.number = next;
                Ok(())
            }
            Err(_) => Err(SealFault::NoMemory),
        }
    }
}
