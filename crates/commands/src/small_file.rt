//! Reads a small file whole, up to a limit.

ghost use Rattle.std.specs.Prelude.{◌≡◌, ℕ, List, IfOk, IfErr};
ghost use Rattle.commands.specs.Known.{HoldsOf};
ghost use Rattle.commands.specs.Refusals.{IsRefusedAs, IsWanting};
ghost use Rattle.commands.specs.inner.Cover.{IsSmall, IsText, IsTextOf};

use crate::disk::Disk;
use crate::feed_loop::{Feeds, feed_all};
use crate::whole_source::out_of_memory;
use reports::Refusal;

/// The most bytes of a small file: 64 MiB.
const MOST: usize = 67_108_864;

/// The bytes of a file so far; dropped once there are too many.
#[derive(Drop)]
struct Small {
    /// The bytes, or none once there are too many.
    items: Vec<u8>,
    /// Whether the file has more than `MOST` bytes.
    is_long: bool,
}

impl Feeds for Small {
    ghost use Rattle.commands.specs.inner.Cover.{IsSmall};
    ghost use Rattle.commands.specs.inner.Feed.{Extends, extends_nothing, extends_more};

    ghost took = { Extends (λ bytes s. IsSmall bytes s.items.items s.is_long) };

    ghost nothing = { extends_nothing (λ bytes s. IsSmall bytes s.items.items s.is_long) };

    ghost more = { extends_more (λ bytes s. IsSmall bytes s.items.items s.is_long) };

    /// Appends a piece of the file, unless the file is longer than `MOST` bytes; then what was read
    /// is dropped.
    fn feed(&mut self, piece: &[u8]) -> Result<(), Refusal> {
        if self.is_long {
            return Ok(());
        }
        if self.items.len() > MOST || piece.len() > MOST - self.items.len() {
            self.is_long = true;
            self.items.clear();
            return Ok(());
        }
        self.items.extend_from_slice(piece).map_err(out_of_memory)
    }

    /// Whether the file is too long, so that the rest of it is not needed.
    fn is_settled(&self) -> bool {
        self.is_long
    }
}

/// What was read of a small file.
#[derive(Drop)]
pub(crate) enum SmallText {
    /// All of its bytes.
    Whole(Vec<u8>),
    /// It has more bytes than the limit.
    TooLong,
    /// It cannot be opened, or not be read to its end.
    Unread,
}

/// Answers what a file is that was read to its end: its bytes, or too long.
fn ended(small: Small) -> SmallText
    ensures { (bytes : List ℕ) → IsSmall bytes small.items.items small.is_long → IsTextOf bytes result }
{
    let Small { items, is_long } = small;
    if is_long {
        return SmallText::TooLong;
    }
    SmallText::Whole(items)
}

/// Answers `Unread` for a file that cannot be read; out of memory stays an error.
fn unread(refusal: Refusal) -> Result<SmallText, Refusal>
    ensures unread { IfOk result (λ text. text ≡ SmallText.Unread) }
    ensures refused { IsRefusedAs Refusal.Proof refusal → IfErr result IsWanting }
{
    match refusal {
        Refusal::Proof => Ok(SmallText::Unread),
        other => Err(other),
    }
}

/// Reads the file at a path to its end, or until it is too long: answers its bytes, or that it is too long. It errs if it cannot be read or
/// memory runs out.
fn read_whole<D: Disk>(disk: &D, path: &str) -> Result<SmallText, Refusal>
    ensures reads { IfOk result (λ text. HoldsOf (D.holds disk.now path.now) (λ bytes. IsTextOf bytes text)) }
    ensures refused { IfErr result (IsRefusedAs Refusal.Proof) }
{
    let mut small = Small {
        items: Vec::new(disk.alloc()),
        is_long: false,
    };
    let mut pieces = disk.open(path, Refusal::Proof)?;
    feed_all(&mut pieces, &mut small)?;
    Ok(ended(small))
}

/// Reads the file at a path: answers its bytes, that it is too long, or that it cannot be read. It errs only if memory runs out.
pub(crate) fn read_small<D: Disk>(disk: &D, path: &str) -> Result<SmallText, Refusal>
    ensures reads { IfOk result (IsText (D.holds disk.now path.now)) }
    ensures refused { IfErr result IsWanting }
{
    match read_whole(disk, path) {
        Ok(text) => Ok(text),
        Err(refusal) => unread(refusal),
    }
}
