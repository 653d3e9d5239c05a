//! A text in packed blocks, up to the first block with a byte that is no character of LRAT lines, and after them a plain tail.

ghost use Rattle.std.specs.Prelude.{◌≡◌, ℕ, ◌+◌, ◌*◌, ◌/◌, ◌<◌, ◌≤◌, ◌++◌, [], IsTrue, MatchBool, length, take, drop, vec_capacity, All, MatchOption, OnOk, OnErr, IfOk, flat_map};
ghost use Rattle.lrat_text.specs.Grammar.{IsStep, IsStepWithin, IsClauseNumber};
ghost use Rattle.lrat_text.specs.Steps.{step_of};
ghost use Rattle.lrat_text.specs.WrittenLine.{line_of};
ghost use Rattle.packed_text.specs.Packed.{BeginsWithCharacter, byte_text};
ghost use Rattle.packed_text.specs.inner.Packed.{IsFront, IsPair};

use crate::glyphs::{pack, unpack};
use crate::rope;
use crate::rope::Rope;
use lrat_text::{StepRef, put_ref_within};
use std::alloc::{AllocError, Global};
use std::marker::Model;

/// The number of characters that are packed at once, into one block of bytes.
const BLOCK: usize = 2 * rope::BLOCK;

/// Packs a block of text and appends it to the packed blocks. Answers `false`, with no change, if a byte is no character of lines or memory
/// is refused.
fn pack_block(pairs: &mut Rope, text: &[u8], like: Option<&Rope>) -> bool
    requires block { length text.now ≡ 4096 }
    requires pairs { All IsPair pairs.old }
    ensures pairs { All IsPair pairs.new }
    ensures text { MatchBool result (flat_map byte_text pairs.new ≡ flat_map byte_text pairs.old ++ text.now) (pairs.new ≡ pairs.old) }
{
    let mut block = [0; rope::BLOCK];
    pack(&mut block, text) && pairs.push(&block, like)
}

/// Packs a text block by block, up to the first block that cannot be packed, and answers how many characters were packed.
fn pack_front(pairs: &mut Rope, text: &[u8], like: Option<&Rope>) -> usize
    requires pairs { All IsPair pairs.old }
    ensures pairs { All IsPair pairs.new }
    ensures front { flat_map byte_text pairs.new ≡ flat_map byte_text pairs.old ++ take result text.now }
    ensures few { result ≤ length text.now }
{
    let mut done = 0;
    while text.len() - done >= BLOCK {
        if !pack_block(pairs, &text[done..done + BLOCK], like) {
            break;
        }
        done += BLOCK;
    }
    done
}

/// Removes the first `count` bytes, and keeps the capacity. With a `count` of 0 it copies nothing,
/// since that is what each call asks for of a tail that cannot be packed.
fn remove_front(bytes: &mut Vec<u8>, count: usize)
    requires { count ≤ length bytes.old.items }
    ensures items { bytes.new.items ≡ drop count bytes.old.items }
    ensures capacity { vec_capacity bytes.new ≡ vec_capacity bytes.old }
{
    if count == 0 {
        return;
    }
    let left = bytes.len() - count;
    bytes.copy_within(count.., 0);
    bytes.truncate(left);
}

/// Appends the text of `count` packed bytes from offset `from` on.
fn unpack_part(out: &mut Vec<u8>, pairs: &Rope, from: usize, count: usize) -> Result<(), AllocError>
    requires pairs { All IsPair pairs.now }
    requires inside { from + count ≤ length pairs.now }
    ensures { OnOk result (out.new.items ≡ out.old.items ++ flat_map byte_text (take count (drop from pairs.now))) }
{
    let _ = pairs.len(); // its contract bounds the length, so that `from + done` does not wrap
    let mut done = 0;
    while done < count {
        let part = pairs.part(from + done);
        let few = part.len().min(count - done);
        unpack(out, &part[..few])?;
        done += few;
    }
    Ok(())
}

/// Unpacks the text from packed offset `from` (in bytes) on, then the tail: at least `count` + 1
/// characters, or all that are left. One more than `count`, since the wanted text may begin with
/// the second character of the first packed byte.
fn front_of(
    alloc: Global,
    pairs: &Rope,
    from: usize,
    tail: &[u8],
    count: usize,
) -> Result<Vec<u8>, AllocError>
    requires pairs { All IsPair pairs.now }
    requires some { from < length pairs.now }
    ensures { IfOk result (λ v. IsFront count v.items (flat_map byte_text (drop from pairs.now) ++ tail.now)) }
{
    let left = pairs.len() - from;
    let few = (count / 2 + 1).min(left);
    let mut out = Vec::with_capacity(alloc, few.saturating_mul(2))?;
    unpack_part(&mut out, pairs, from, few)?;
    if few < left {
        return Ok(out);
    }
    out.extend_from_slice(&tail[..count.min(tail.len())])?;
    Ok(out)
}

/// Answers the bytes of a tail from offset `from` on, at most `count`.
fn part_of_tail(
    alloc: Global,
    tail: &[u8],
    from: usize,
    count: usize,
) -> Result<Vec<u8>, AllocError>
    ensures { IfOk result (λ v. v.items ≡ take count (drop from tail.now)) }
{
    let part = &tail[from.min(tail.len())..];
    Vec::from_slice(alloc, &part[..count.min(part.len())])
}

/// Removes the first character if `from` is 1 (the wanted text begins with the second one of a
/// packed byte), and then all except the first `count`.
fn cut(bytes: &mut Vec<u8>, from: usize, count: usize)
    requires { (from ≤ 1) × (from ≤ length bytes.old.items) }
    ensures { bytes.new.items ≡ take count (drop from bytes.old.items) }
{
    if from == 1 {
        bytes.remove(0);
    }
    bytes.truncate(count);
}

/// Replaces the tail by the first `count` characters of a packed block, of which `truncate` keeps
/// only a part. The tail has the capacity for the whole block, so no memory is taken.
fn refill(tail: &mut Vec<u8>, block: &[u8], count: usize)
    requires block { All IsPair block.now }
    requires few { length block.now ≤ 2048 }
    requires room { 2 * length block.now ≤ vec_capacity tail.old }
    ensures items { tail.new.items ≡ take count (flat_map byte_text block.now) }
    ensures capacity { vec_capacity tail.old ≤ vec_capacity tail.new }
{
    tail.clear();
    unpack(tail, block).unwrap();
    tail.truncate(count);
}

/// A text in half its memory: two characters a byte. Any bytes may be appended. From the first block with a byte that is no character of
/// lines, the text is stored plain.
pub struct PackedText {
    /// The packed blocks: two characters a byte.
    pairs: Rope,
    /// The plain text after the packed blocks.
    tail: Vec<u8>,
}

impl Drop for PackedText {
    fn drop(self) {
        let PackedText { pairs: _, tail: _ } = self;
    }
}

impl Model for PackedText {
    ghost use Rattle.std.specs.Prelude.{◌≡◌, ◌≤◌, ◌++◌, ◌⊎◌, [], List, ℕ, All, flat_map, vec_capacity};
    ghost use Rattle.packed_text.specs.Packed.{byte_text};
    ghost use Rattle.packed_text.specs.inner.Packed.{IsPair};

    ghost Value = { List ℕ };

    ghost view = { λ t. flat_map byte_text t.pairs ++ t.tail.items };

    ghost invariant = { λ t. All IsPair t.pairs × ((t.pairs ≡ []) ⊎ (4096 ≤ vec_capacity t.tail)) };
}

impl PackedText {
    /// An empty text. It allocates nothing.
    pub fn new(alloc: Global) -> PackedText
        ensures { result ≡ [] }
    {
        PackedText {
            pairs: Rope::new(alloc),
            tail: Vec::new(alloc),
        }
    }

    /// Makes a packed copy of a text.
    pub fn of(alloc: Global, text: &[u8]) -> Result<PackedText, AllocError>
        ensures { IfOk result (λ packed. packed ≡ text.now) }
    {
        let mut packed = PackedText::new(alloc);
        let mut rest = text;
        while !rest.is_empty() {
            let (block, later) = rest.split_at(rest.len().min(BLOCK));
            packed.extend(block)?;
            rest = later;
        }
        Ok(packed)
    }

    /// Answers the length of the text in bytes.
    #[allow(clippy::len_without_is_empty)]
    pub fn len(&self) -> usize
        ensures { result ≡ length self.now }
    {
        2 * self.pairs.len() + self.tail.len()
    }

    /// Appends bytes. If memory is refused, the text is as before.
    pub fn extend(&mut self, more: &[u8]) -> Result<(), AllocError>
        ensures ok { OnOk result (self.new ≡ self.old ++ more.now) }
        ensures err { OnErr result (self.new ≡ self.old) }
    {
        self.tail.extend_from_slice(more)?;
        self.settle(None);
        Ok(())
    }

    /// Appends bytes. A new packed block is shared with `like` if the block of `like` at the same index has the same bytes. If memory is
    /// refused, the text is as before.
    pub fn extend_like(&mut self, more: &[u8], like: &PackedText) -> Result<(), AllocError>
        ensures ok { OnOk result (self.new ≡ self.old ++ more.now) }
        ensures err { OnErr result (self.new ≡ self.old) }
    {
        self.tail.extend_from_slice(more)?;
        self.settle(Some(&like.pairs));
        Ok(())
    }

    /// Shares the last packed block with the block of `like` at the same index, if that has the same bytes. It allocates nothing.
    ///
    /// A text that grows by less than a block (4,096 characters) at a time shares all that it can if this is called after each growth.
    pub fn share_last(&mut self, like: &PackedText)
        ensures { self.new ≡ self.old }
    {
        self.pairs.share_last(&like.pairs);
    }

    /// Moves the whole blocks of the tail into the packed part, up to the first one that cannot be
    /// packed: a byte is no character of LRAT lines, or memory is refused.
    fn settle(&mut self, like: Option<&Rope>)
        ensures { self.new ≡ self.old }
    {
        if self.tail.len() < BLOCK {
            return;
        }
        let done = pack_front(&mut self.pairs, &self.tail, like);
        remove_front(&mut self.tail, done);
    }

    /// Appends the line of a step with variables up to 199,999,999, which [`put_ref_within`] writes to the buffer `line` first; its memory
    /// is used again from call to call. If memory is refused, the text is as before.
    pub fn put_within(
        &mut self,
        step: StepRef<'_>,
        top: u64,
        line: &mut Vec<u8>,
    ) -> Result<(), AllocError>
        requires limits { IsStepWithin 199999999 (step_of step) }
        requires numbered { IsClauseNumber top }
        ensures ok { OnOk result (self.new ≡ self.old ++ line_of top (step_of step.entry)) }
        ensures err { OnErr result (self.new ≡ self.old) }
    {
        line.clear();
        put_ref_within(step, top, line)?;
        self.extend(line)
    }

    /// Appends the line of a step with variables up to 2,000,000. The line is written to the buffer
    /// `line` first, whose memory is used again from call to call. If memory is refused, the text
    /// is as before.
    pub fn put(&mut self, step: StepRef<'_>, top: u64, line: &mut Vec<u8>) -> Result<(), AllocError>
        requires limits { IsStep (step_of step) }
        requires numbered { IsClauseNumber top }
        ensures ok { OnOk result (self.new ≡ self.old ++ line_of top (step_of step.entry)) }
        ensures err { OnErr result (self.new ≡ self.old) }
    {
        self.put_within(step, top, line)
    }

    /// Copies the bytes of the text from offset `from` on, at most `count`.
    pub fn read(&self, alloc: Global, from: usize, count: usize) -> Result<Vec<u8>, AllocError>
        ensures { IfOk result (λ v. v.items ≡ take count (drop from self.now)) }
    {
        let packed = 2 * self.pairs.len();
        if from >= packed {
            return part_of_tail(alloc, &self.tail, from - packed, count);
        }
        let mut out = front_of(alloc, &self.pairs, from / 2, &self.tail, count)?;
        cut(&mut out, from % 2, count);
        Ok(out)
    }

    /// Lends the whole text, if no block of it is packed. `None` says that some block is packed; so the text begins with a character of
    /// lines.
    pub fn as_plain(&self) -> Option<&[u8]>
        ensures { MatchOption result (BeginsWithCharacter self.now) (λ bytes. bytes.now ≡ self.now) }
    {
        if self.pairs.len() > 0 {
            return None;
        }
        Some(&self.tail)
    }

    /// Makes a plain copy of the text.
    pub fn to_text(&self, alloc: Global) -> Result<Vec<u8>, AllocError>
        ensures { IfOk result (λ text. text.items ≡ self.now) }
    {
        self.read(alloc, 0, self.len())
    }

    /// Removes all bytes after the first `count`. A block that is cut is unpacked into the tail, so
    /// it allocates nothing.
    pub fn truncate(&mut self, count: usize)
        ensures { self.new ≡ take count self.old }
    {
        let packed = 2 * self.pairs.len();
        if count >= packed {
            self.tail.truncate(count - packed);
            return;
        }
        let blocks = count / BLOCK;
        // Packing keeps the tail's capacity, so the tail has room for one block.
        refill(
            &mut self.tail,
            self.pairs.part(rope::BLOCK * blocks),
            count % BLOCK,
        );
        self.pairs.truncate(blocks);
    }
}
