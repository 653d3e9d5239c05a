//! The `c` lines of `weave`: what was found of the logs of a cell, and why no log is woven.

ghost use Rattle.std.specs.Prelude.{◌≡◌, ◌++◌, OnOk, codes, decimal, flat_map};
ghost use Rattle.commands.specs.Weave.{AreNotes, line_text, shown_byte};

use reports::put_number;
use std::alloc::AllocError;
use weaving::{CellLogs, LogOutcome, WeaveFault};

/// Appends a byte of a log's name; one that is no letter or digit is shown as `?`.
fn put_byte(out: &mut Vec<u8>, byte: u8) -> Result<(), AllocError>
    ensures { OnOk result (out.new.items ≡ out.old.items ++ shown_byte byte) }
{
    if byte.is_ascii_alphanumeric() {
        out.push(byte)?;
        return Ok(());
    }
    out.push(b'?')?;
    Ok(())
}

/// Appends the name of a log.
fn put_name(out: &mut Vec<u8>, name: &[u8]) -> Result<(), AllocError>
    ensures { OnOk result (out.new.items ≡ out.old.items ++ flat_map shown_byte name.now) }
{
    for byte in name {
        put_byte(out, *byte)?;
    }
    Ok(())
}

/// Appends a line on a log: its name, the line's number, and what is said of that line.
fn put_line_of(out: &mut Vec<u8>, name: &[u8], line: u64, said: &[u8]) -> Result<(), AllocError>
    ensures { OnOk result (out.new.items ≡ out.old.items ++ line_text name.now line said.now) }
{
    out.extend_from_slice(b"c log ")?;
    put_name(out, name)?;
    out.extend_from_slice(b" line ")?;
    put_number(out, line)?;
    out.extend_from_slice(said)
}

/// Appends that the import on a line of a log fails.
fn put_failed(out: &mut Vec<u8>, name: &[u8], line: u64) -> Result<(), AllocError>
    ensures { OnOk result (AreNotes out.old.items → AreNotes out.new.items) }
{
    put_line_of(out, name, line, b" import fails\n")?;
    Ok(())
}

/// Appends that a line of a log is none.
fn put_refused(out: &mut Vec<u8>, name: &[u8], line: u64) -> Result<(), AllocError>
    ensures { OnOk result (AreNotes out.old.items → AreNotes out.new.items) }
{
    put_line_of(out, name, line, b" refused\n")?;
    Ok(())
}

/// Appends that the lemma on a line of a log does not follow.
fn put_wrong(out: &mut Vec<u8>, name: &[u8], line: u64) -> Result<(), AllocError>
    ensures { OnOk result (AreNotes out.old.items → AreNotes out.new.items) }
{
    put_line_of(out, name, line, b" does not follow\n")?;
    Ok(())
}

/// Appends that there are too many lemmas.
fn put_too_many(out: &mut Vec<u8>) -> Result<(), AllocError>
    ensures { OnOk result (AreNotes out.old.items → AreNotes out.new.items) }
{
    out.extend_from_slice(b"c too many lemmas\n")?;
    Ok(())
}

/// Appends that the logs have changed while they were read.
fn put_changed(out: &mut Vec<u8>) -> Result<(), AllocError>
    ensures { OnOk result (AreNotes out.old.items → AreNotes out.new.items) }
{
    out.extend_from_slice(b"c logs have changed\n")?;
    Ok(())
}

/// Appends that the logs close nothing.
pub(crate) fn put_nothing(out: &mut Vec<u8>) -> Result<(), AllocError>
    ensures { OnOk result (AreNotes out.old.items → AreNotes out.new.items) }
{
    out.extend_from_slice(b"c closes nothing\n")?;
    Ok(())
}

/// Appends what was found of a log: its first import that failed, and the line that is none.
fn put_outcome(out: &mut Vec<u8>, name: &[u8], found: &LogOutcome) -> Result<(), AllocError>
    ensures { OnOk result (AreNotes out.old.items → AreNotes out.new.items) }
{
    if found.failed > 0 {
        put_failed(out, name, found.first_failed)?;
    }
    if found.is_bad {
        put_refused(out, name, found.lines.saturating_add(1))?;
    }
    Ok(())
}

/// Appends what was found of the logs.
pub(crate) fn put_outcomes<L: CellLogs>(
    out: &mut Vec<u8>,
    logs: &L,
    outcomes: &[LogOutcome],
) -> Result<(), AllocError>
    ensures { OnOk result (AreNotes out.old.items → AreNotes out.new.items) }
{
    for log in 0..outcomes.len() {
        put_outcome(out, logs.name(log), &outcomes[log])?;
    }
    Ok(())
}

/// Appends why no log is woven.
pub(crate) fn put_fault<L: CellLogs>(
    out: &mut Vec<u8>,
    logs: &L,
    fault: WeaveFault,
) -> Result<(), AllocError>
    ensures { OnOk result (AreNotes out.old.items → AreNotes out.new.items) }
{
    match fault {
        WeaveFault::NotImplied { log, line } => put_wrong(out, logs.name(log), line),
        WeaveFault::TooMany => put_too_many(out),
        _ => put_changed(out),
    }
}
