//! What is known of a program by the note that was left where it was proved.

ghost use Rattle.std.specs.Prelude.{◌≡◌, ◌++◌, ℕ, List, IfOk, IfErr, OnOk, codes};
ghost use Rattle.commands.specs.Identity.{TellsIdentity, commit_of, digest_end, identity_text, proved_text};
ghost use Rattle.commands.specs.Known.{HoldsOf};
ghost use Rattle.commands.specs.Refusals.{IsRefusedAs, IsWanting};
ghost use Rattle.sha2.specs.Sha256.{sha256};

use crate::disk::Disk;
use crate::feed_loop::{Feeds, feed_all};
use crate::small_file::{SmallText, read_small};
use crate::whole_source::out_of_memory;
use reports::Refusal;
use sha2::{Digest, Sha256};
use std::alloc::{AllocError, Global};

/// The digest of a file that is read.
#[derive(Drop)]
struct Hashing {
    /// A hasher (SHA-256) that has taken the bytes so far.
    hasher: Sha256,
}

impl Feeds for Hashing {
    ghost use Rattle.commands.specs.inner.Feed.{Extends, extends_nothing, extends_more};
    ghost use Rattle.sha2.specs.Hashers.{Holds256};

    ghost took = { Extends (λ bytes s. Holds256 s.hasher bytes) };

    ghost nothing = { extends_nothing (λ bytes s. Holds256 s.hasher bytes) };

    ghost more = { extends_more (λ bytes s. Holds256 s.hasher bytes) };

    /// Gives the next piece of the file to the hasher.
    fn feed(&mut self, piece: &[u8]) -> Result<(), Refusal> {
        self.hasher.update(piece);
        Ok(())
    }

    /// False: each byte changes the digest.
    fn is_settled(&self) -> bool {
        false
    }
}

/// The SHA-256 of the file at a path. It errs if the file cannot be read or memory runs out.
fn digest_of<D: Disk>(disk: &D, path: &str) -> Result<[u8; 32], Refusal>
    ensures digest { IfOk result (λ d. HoldsOf (D.holds disk.now path.now) (λ bytes. d ≡ sha256 bytes)) }
    ensures refused { IfErr result (IsRefusedAs Refusal.Proof) }
{
    let mut hashing = Hashing {
        hasher: Sha256::new(),
    };
    let mut pieces = disk.open(path, Refusal::Proof)?;
    feed_all(&mut pieces, &mut hashing)?;
    let Hashing { hasher } = hashing;
    Ok(hasher.finalize())
}

/// How a note of a program with this digest ends.
fn end_of(alloc: Global, digest: &[u8; 32]) -> Result<Vec<u8>, AllocError>
    ensures { IfOk result (λ end. end.items ≡ digest_end digest.now) }
{
    let digits = hex::encode(alloc, digest.as_slice())?;
    let mut end = Vec::new(alloc);
    end.push(b'\n')?;
    end.extend_from_slice(digits.as_str().as_bytes())?;
    end.push(b'\n')?;
    Ok(end)
}

/// Appends the commit of a note: the letters and digits with which it begins.
fn put_commit(out: &mut Vec<u8>, note: &[u8]) -> Result<(), AllocError>
    ensures { OnOk result (out.new.items ≡ out.old.items ++ commit_of note.now) }
{
    for byte in note {
        if !byte.is_ascii_alphanumeric() {
            return Ok(());
        }
        out.push(*byte)?;
    }
    Ok(())
}

/// The line that names the commit of a note behind these words.
fn line_of(alloc: Global, words: &[u8], note: &[u8]) -> Result<Vec<u8>, AllocError>
    ensures { IfOk result (λ line. line.items ≡ words.now ++ commit_of note.now ++ codes "\n") }
{
    let mut line = Vec::new(alloc);
    line.extend_from_slice(words)?;
    put_commit(&mut line, note)?;
    line.push(b'\n')?;
    Ok(line)
}

/// The line of a program by the lines of its note before the last one.
fn proved_line(alloc: Global, front: &[u8], note: &[u8]) -> Result<Vec<u8>, AllocError>
    ensures { IfOk result (λ line. line.items ≡ proved_text front.now note.now) }
{
    if front.ends_with(b", 0 failed") {
        return line_of(alloc, b"proved by the gate of ", note);
    }
    if front.ends_with(b"logic=proved") {
        return line_of(alloc, b"proved by a build of ", note);
    }
    Vec::from_slice(alloc, b"not proved\n")
}

/// The line of a program with this digest by a note, which may be of another program.
fn line_by(alloc: Global, note: &[u8], digest: &[u8; 32]) -> Result<Vec<u8>, AllocError>
    ensures { IfOk result (λ line. line.items ≡ identity_text note.now digest.now) }
{
    let end = end_of(alloc, digest)?;
    let end = end.as_slice();
    if note.ends_with(end) {
        return proved_line(alloc, &note[..note.len() - end.len()], note);
    }
    Vec::from_slice(alloc, b"not proved\n")
}

/// The line of a program with this digest by a note. It errs if memory runs out.
fn told_by(alloc: Global, note: &[u8], digest: &[u8; 32]) -> Result<Vec<u8>, Refusal>
    ensures text { IfOk result (λ line. line.items ≡ identity_text note.now digest.now) }
    ensures refused { IfErr result IsWanting }
{
    line_by(alloc, note, digest).map_err(out_of_memory)
}

/// The line of a program of which nothing is known. It errs if memory runs out.
fn unknown(alloc: Global) -> Result<Vec<u8>, Refusal>
    ensures text { IfOk result (λ line. line.items ≡ codes "not known whether it is proved\n") }
    ensures refused { IfErr result IsWanting }
{
    Vec::from_slice(alloc, b"not known whether it is proved\n").map_err(out_of_memory)
}

/// The line of a program that was read, by the note in the file at a path.
fn told_of<D: Disk>(disk: &D, digest: &[u8; 32], note: &str) -> Result<Vec<u8>, Refusal>
    ensures tells { (program : List ℕ) → digest.now ≡ sha256 program → IfOk result (λ line. TellsIdentity (Some program) (D.holds disk.now note.now) line.items) }
    ensures refused { IfErr result IsWanting }
{
    match read_small(disk, note)? {
        SmallText::Whole(text) => told_by(disk.alloc(), text.as_slice(), digest),
        _ => unknown(disk.alloc()),
    }
}

/// The line that says of which commit the program in the file `program` was proved, by the note in
/// the file `note`, whose four lines are the commit, the kit, how the proof ended, and the SHA-256
/// of the program. It is `proved by the gate of COMMIT`, `proved by a build of COMMIT`, `not proved`
/// if the note is of another program or of a gate that failed, or `not known whether it is proved`
/// if one of the files cannot be read. It errs if memory runs out.
pub fn identity_line<D: Disk>(disk: &D, program: &str, note: &str) -> Result<Vec<u8>, Refusal>
    ensures tells { IfOk result (λ line. TellsIdentity (D.holds disk.now program.now) (D.holds disk.now note.now) line.items) }
    ensures refused { IfErr result IsWanting }
{
    match digest_of(disk, program) {
        Ok(digest) => told_of(disk, &digest, note),
        Err(Refusal::NoMemory) => Err(Refusal::NoMemory),
        Err(_) => unknown(disk.alloc()),
    }
}
