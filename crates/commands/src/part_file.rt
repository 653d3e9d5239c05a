//! An unfinished file, to which a text is appended as it comes, or converted to binary form.

ghost use Rattle.std.specs.Prelude.{◌≡◌, ◌++◌, ℕ, Bool, List, [], IfOk, IfErr, IsTrue, OnOk};
ghost use Rattle.commands.specs.Refusals.{IsRefusedAs};
ghost use Rattle.commands.specs.Written.{IsLeft, Keeps};
ghost use Rattle.commands.specs.inner.Parts.{IsPart, IsEnded};

use crate::drafts::Drafts;
use lrat_forms::BinaryForm;
use lrat_text::TextFault;
use reports::Refusal;

/// The greatest variable that any proof may have.
const MOST: u32 = 199_999_999;

/// An unfinished file. It has no `Drop`: it is kept or removed by a call.
pub(crate) struct Part<F> {
    /// The file of the disk.
    pub(crate) draft: F,
    /// The converter to binary form; `None` if the text is written as it comes.
    pub(crate) form: Option<BinaryForm>,
}

/// Answers the refusal for a fault of the conversion to binary form: out of memory, or `Writing` for any other.
fn conversion_refusal(fault: TextFault) -> Refusal
    ensures { IsRefusedAs Refusal.Writing result }
{
    match fault {
        TextFault::NoMemory => Refusal::NoMemory,
        _ => Refusal::Writing,
    }
}

/// A new file without text; what is appended to it is converted to binary form if `binary`.
pub(crate) fn part_of<D: Drafts>(disk: &D, draft: D::Draft, binary: bool) -> Part<D::Draft>
    ensures { (path : List ℕ) → D.made draft path [] → IsPart D.made binary path [] result }
{
    if binary {
        Part {
            draft,
            form: Some(BinaryForm::within(disk.alloc(), MOST)),
        }
    } else {
        Part { draft, form: None }
    }
}

/// Appends a text to an unfinished file, converted if binary form is asked for. It errs
/// if a write or the conversion fails, or memory runs out.
pub(crate) fn append<D: Drafts>(
    disk: &D,
    part: &mut Part<D::Draft>,
    text: &[u8],
) -> Result<(), Refusal>
    ensures written { OnOk result ((binary : Bool) (path before : List ℕ) → IsPart D.made binary path before part.old → IsPart D.made binary path (before ++ text.now) part.new) }
    ensures refused { IfErr result (IsRefusedAs Refusal.Writing) }
{
    match &mut part.form {
        None => disk.append(&mut part.draft, text),
        Some(form) => {
            form.feed(text).map_err(conversion_refusal)?;
            disk.append(&mut part.draft, form.written())?;
            form.forget();
            Ok(())
        }
    }
}

/// Ends the text of an unfinished file. In binary form it errs if the last line has no
/// LF, since such a line was not converted.
fn end(form: &Option<BinaryForm>) -> Result<(), Refusal>
    ensures ended { OnOk result (IsEnded form.now) }
    ensures refused { IfErr result (IsRefusedAs Refusal.Writing) }
{
    match form {
        None => Ok(()),
        Some(form) => match form.finish() {
            Ok(()) => Ok(()),
            Err(fault) => Err(conversion_refusal(fault)),
        },
    }
}

/// Gives up an unfinished file.
pub(crate) fn remove<D: Drafts>(disk: &D, part: Part<D::Draft>) {
    let Part { draft, form: _ } = part;
    disk.remove(draft);
}

/// Ends the text of a written file, and puts the file at its path. Answers false, and removes the
/// file, if it cannot be renamed. It is removed after an error too.
pub(crate) fn keep<D: Drafts>(disk: &mut D, part: Part<D::Draft>) -> Result<bool, Refusal>
    ensures kept { IfOk result (λ b. IsTrue b → (binary : Bool) (path text : List ℕ) → IsPart D.made binary path text part → Keeps D.kept disk.old disk.new binary path text) }
    ensures left { IsLeft disk.old disk.new result }
    ensures refused { IfErr result (IsRefusedAs Refusal.Writing) }
{
    let Part { draft, form } = part;
    match end(&form) {
        Ok(()) => disk.keep(draft),
        Err(refusal) => {
            disk.remove(draft);
            Err(refusal)
        }
    }
}
