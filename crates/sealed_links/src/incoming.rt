//! The records of one direction as they come in.

ghost use Rattle.std.specs.Prelude.{◌≡◌, ◌+◌, ◌≤◌, ◌↔◌, ◌++◌, [], length, drop, replicate, take, IfErr, IfOk, IsTrue, OnErr, OnOk};
ghost use Rattle.sealed_links.specs.Links.{StopsWithin, TakesAll};
ghost use Rattle.sealed_links.specs.Numbers.{bytes8};
ghost use Rattle.sealed_links.specs.Records.{told_length};
ghost use Rattle.sealed_links.specs.SipHash.{tag_of};
ghost use Rattle.sealed_links.specs.inner.HandsOn.{HandsOn, IsSame};
ghost use Rattle.sealed_links.specs.inner.Looks.{Looks};

use crate::numbers::{number_of4, number_of8};
use crate::sealer::MOST_BYTES;
use crate::siphash::{TagKey, tag};
use hmac::is_same;
use std::alloc::Global;

/// The number of bytes before a payload: the record's number in eight, and the payload's length in four.
const HEADER: usize = 12;

/// The number of bytes of a tag.
const TAG: usize = 16;

/// Why no more is opened.
#[derive(Clone, Copy, Debug, PartialEq, Eq)]
pub enum OpenFault {
    /// What came is not the next record of this direction.
    Wrong,
    /// Memory was refused.
    NoMemory,
    /// There was a fault before.
    Ended,
}

/// What a look at bytes says of the record that they begin with.
#[derive(Clone, Copy)]
pub(crate) enum Look {
    /// It has not come whole.
    Unfinished,
    /// It is there whole, with so many bytes of payload.
    Record(usize),
    /// They begin no record of this direction and number.
    Wrong,
}

/// What has come of a direction and was not handed on.
#[derive(Drop)]
pub struct Incoming {
    pub(crate) alloc: Global,
    pub(crate) key: TagKey,
    /// The number of the next record.
    pub(crate) number: u64,
    /// The bytes that have come of it.
    pub(crate) held: Vec<u8>,
}

/// Appends bytes. It is an error if memory is refused; then nothing is appended.
fn append(out: &mut Vec<u8>, bytes: &[u8]) -> Result<(), OpenFault>
    ensures ok { OnOk result (out.new.items ≡ out.old.items ++ bytes.now) }
    ensures err { IfErr result (λ fault. (fault ≡ OpenFault.NoMemory) × (out.new.items ≡ out.old.items)) }
{
    match out.extend_from_slice(bytes) {
        Ok(()) => Ok(()),
        Err(_) => Err(OpenFault::NoMemory),
    }
}

/// The length of the payload, as the header tells it.
fn told(bytes: &[u8]) -> usize
    requires { HEADER ≤ length bytes.now }
    ensures { result ≡ told_length bytes.now }
{
    let mut long = [0; 4];
    long.copy_from_slice(&bytes[8..HEADER]);
    number_of4(long) as usize
}

/// Whether the header has this number.
fn has_number(bytes: &[u8], number: u64) -> bool
    requires { HEADER ≤ length bytes.now }
    ensures { IsTrue result ↔ (take 8 bytes.now ≡ bytes8 number) }
{
    let mut first = [0; 8];
    first.copy_from_slice(&bytes[..8]);
    number_of8(first) == number
}

/// A tag with zeros appended, for the comparison of MACs.
fn widened(tag: &[u8]) -> [u8; 32]
    requires { length tag.now ≡ TAG }
    ensures { result ≡ tag.now ++ replicate TAG 0 }
{
    let mut wide = [0; 32];
    wide[..TAG].copy_from_slice(tag);
    wide
}

/// Whether two tags are equal, in a time that does not depend on their bytes.
fn is_tag(found: &[u8], wanted: &[u8]) -> bool
    requires found { length found.now ≡ TAG }
    requires wanted { length wanted.now ≡ TAG }
    ensures { IsTrue result ↔ (found.now ≡ wanted.now) }
{
    is_same(&widened(found), &widened(wanted))
}

/// Whether the record has its tag after its payload of `long` bytes.
fn has_tag(key: &TagKey, bytes: &[u8], long: usize) -> bool
    requires { HEADER + long + TAG ≤ length bytes.now }
    ensures { IsTrue result ↔ (take TAG (drop (HEADER + long) bytes.now) ≡ tag_of key.now (take (HEADER + long) bytes.now)) }
{
    let end = HEADER + long;
    is_tag(&bytes[end..end + TAG], &tag(key, &bytes[..end]))
}

/// Looks at bytes: whether they begin with record `number`.
fn look_at(key: &TagKey, number: u64, bytes: &[u8]) -> Look
    ensures { Looks key.now number bytes.now result }
{
    if bytes.len() < HEADER {
        return Look::Unfinished;
    }
    if number == u64::MAX {
        return Look::Wrong;
    }
    let long = told(bytes);
    if MOST_BYTES < long {
        return Look::Wrong;
    }
    if !has_number(bytes, number) {
        return Look::Wrong;
    }
    if bytes.len() < HEADER + long + TAG {
        return Look::Unfinished;
    }
    if has_tag(key, bytes, long) {
        Look::Record(long)
    } else {
        Look::Wrong
    }
}

impl Incoming {
    /// Nothing has come yet, under this key.
    pub(crate) fn new(alloc: Global, key: TagKey) -> Incoming
        ensures key { result.key ≡ key }
        ensures number { result.number ≡ 0 }
        ensures held { result.held.items ≡ [] }
    {
        Incoming {
            alloc,
            key,
            number: 0,
            held: Vec::new(alloc),
        }
    }

    /// Hands on the payloads of the records that have come whole. Returns how many bytes these records have.
    fn hand_on(&mut self, out: &mut Vec<u8>) -> Result<usize, OpenFault>
        ensures ok { IfOk result (HandsOn self.old self.new out.old.items out.new.items) }
        ensures err { IfErr result (λ fault. StopsWithin fault self.old [] out.old.items out.new.items) }
    {
        let mut at = 0;
        'records: loop {
            match look_at(&self.key, self.number, &self.held[at..]) {
                Look::Unfinished => return Ok(at),
                Look::Wrong => return Err(OpenFault::Wrong),
                Look::Record(long) => {
                    let end = at + HEADER + long;
                    append(out, &self.held[at + HEADER..end])?;
                    self.number += 1;
                    at = end + TAG;
                }
            }
        }
    }

    /// Drops the first `count` bytes that are held. It is an error if memory is refused.
    fn forget(&mut self, count: usize) -> Result<(), OpenFault>
        requires { count ≤ length self.old.held.items }
        ensures held { OnOk result (self.new.held.items ≡ drop count self.old.held.items) }
        ensures same { OnOk result (IsSame self.old self.new) }
        ensures err { OnErr result (result ≡ Err OpenFault.NoMemory) }
    {
        if count == self.held.len() {
            self.held.clear();
            return Ok(());
        }
        match Vec::from_slice(self.alloc, &self.held[count..]) {
            Ok(rest) => {
                self.held = rest;
                Ok(())
            }
            Err(_) => Err(OpenFault::NoMemory),
        }
    }

    /// Takes these bytes, and hands on the payloads of the records that have come whole.
    pub(crate) fn take(&mut self, bytes: &[u8], out: &mut Vec<u8>) -> Result<(), OpenFault>
        ensures ok { OnOk result (TakesAll self.old self.new bytes.now out.old.items out.new.items) }
        ensures err { IfErr result (λ fault. StopsWithin fault self.old bytes.now out.old.items out.new.items) }
    {
        append(&mut self.held, bytes)?;
        let count = self.hand_on(out)?;
        self.forget(count)
    }
}
