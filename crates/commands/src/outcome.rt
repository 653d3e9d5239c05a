//! The end of a run: its report is printed, and its exit status answered.

ghost use Rattle.std.specs.Prelude.{◌≡◌, IfOk};
ghost use Rattle.std.specs.Io.KnownBytes.{Appends};
ghost use Rattle.commands.specs.Outcome.{ends_with, printed};

use reports::Report;
use std::io;
use std::io::Write;

/// Prints a text and flushes. It errs if not all was printed.
pub fn print<W: Write>(out: &mut W, text: &[u8]) -> io::Result<()>
    ensures { IfOk result (λ _. Appends (W.contents out.old) (W.contents out.new) text.now) }
{
    out.write_all(text)?;
    out.flush()
}

/// Prints the text of a report, or the line of a run without one, and answers the exit status: that of the report, or 1. It errs if not all
/// was printed.
pub fn deliver<W: Write>(out: &mut W, found: &Result<Report, &'static str>) -> io::Result<u8>
    ensures text { IfOk result (λ _. Appends (W.contents out.old) (W.contents out.new) (printed found.now)) }
    ensures status { IfOk result (λ status. status ≡ ends_with found.now) }
{
    match found {
        Ok(report) => {
            print(out, &report.stdout)?;
            Ok(report.status)
        }
        Err(line) => {
            print(out, line.as_bytes())?;
            Ok(1)
        }
    }
}
