//! The answer lines of the SAT competitions. After a refusal of memory, a private function may have appended a prefix of its text.

ghost use Rattle.std.specs.Prelude.{◌≡◌, ◌<◌, ◌≤◌, ◌^◌, ◌∷◌, ◌++◌, [], List, ℕ, length, codes, OnOk, OnErr, IfOk, if◌then◌else◌};
ghost use Rattle.std.specs.Fmt.{signed_decimal};
ghost use Rattle.dimacs.specs.logic.Literal.{Pos, Neg, number_of};
ghost use Rattle.dimacs.specs.text.Grammar.{Begins};
ghost use Rattle.dimacs.specs.text.Answer.{filled, satisfied_lines, witness_lines, Lines};

use crate::assignment::Assignment;
use crate::writer::put;
use itoa::Buffer;
use std::alloc::AllocError;

/// What is known of whether a formula is satisfiable.
#[derive(Clone, Copy)]
pub enum Answer<'a> {
    /// This assignment satisfies the formula.
    Satisfiable(&'a Assignment),
    /// No assignment satisfies the formula.
    Unsatisfiable,
    /// The formula is not decided.
    Unknown,
}

/// The greatest length of a `v` line in bytes, without its LF.
const WIDTH: usize = 78;

/// Appends an item to the `v` line, which has `used` bytes, or to a new `v` line if it does not fit. Answers the length of the last line.
fn put_item(out: &mut Vec<u8>, used: usize, item: &[u8]) -> Result<usize, AllocError>
    requires used { used ≤ 78 }
    requires item { length item.now ≤ 40 }
    ensures ok { IfOk result (λ n. (more : List (List ℕ)) → out.new.items ++ filled n more ≡ out.old.items ++ filled used (item.now ∷ more)) }
    ensures used { IfOk result (λ n. n ≤ 78) }
    ensures begins { Begins out.old.items out.new.items }
{
    let wide = used + 1 + item.len();
    if wide <= WIDTH {
        put(out, b" ")?;
        put(out, item)?;
        Ok(wide)
    } else {
        put(out, b"\nv ")?;
        put(out, item)?;
        Ok(2 + item.len())
    }
}

/// Appends a variable with its truth value to the `v` line, which has `used` bytes, or to a new
/// line if it does not fit. Answers the length of the last line.
fn put_value(
    out: &mut Vec<u8>,
    used: usize,
    variable: usize,
    value: bool,
) -> Result<usize, AllocError>
    requires used { used ≤ 78 }
    requires variable { variable < 2 ^ 63 }
    ensures ok { IfOk result (λ n. (more : List (List ℕ)) → out.new.items ++ filled n more ≡ out.old.items ++ filled used (signed_decimal (number_of (if value then Pos variable else Neg variable)) ∷ more)) }
    ensures used { IfOk result (λ n. n ≤ 78) }
    ensures begins { Begins out.old.items out.new.items }
{
    let number = variable as i64;
    let mut buffer = Buffer::new();
    let text = buffer.format(if value { number } else { -number });
    put_item(out, used, text.as_bytes())
}

/// Appends the `v` lines of an assignment.
fn put_witness(out: &mut Vec<u8>, values: &[bool]) -> Result<(), AllocError>
    ensures ok { OnOk result (out.new.items ≡ out.old.items ++ witness_lines values.now) }
    ensures begins { Begins out.old.items out.new.items }
{
    put(out, b"v")?;
    let mut used = 1;
    for (i, value) in values.iter().enumerate() {
        used = put_value(out, used, i + 1, *value)?;
    }
    let _ = put_item(out, used, b"0")?;
    put(out, b"\n")
}

/// Appends `s SATISFIABLE`, and the `v` lines if `witness` is true.
fn put_satisfiable(out: &mut Vec<u8>, values: &[bool], witness: bool) -> Result<(), AllocError>
    ensures ok { OnOk result (out.new.items ≡ out.old.items ++ satisfied_lines values.now witness) }
    ensures begins { Begins out.old.items out.new.items }
{
    put(out, b"s SATISFIABLE\n")?;
    if witness {
        put_witness(out, values)?;
    }
    Ok(())
}

/// Appends the answer line, and for a satisfying assignment its `v` lines if `witness` is true.
fn put_answer(out: &mut Vec<u8>, answer: Answer, witness: bool) -> Result<(), AllocError>
    ensures ok { OnOk result (out.new.items ≡ out.old.items ++ Lines answer.entry witness) }
    ensures begins { Begins out.old.items out.new.items }
{
    match answer {
        Answer::Satisfiable(assignment) => put_satisfiable(out, assignment.values(), witness),
        Answer::Unsatisfiable => put(out, b"s UNSATISFIABLE\n"),
        Answer::Unknown => put(out, b"s UNKNOWN\n"),
    }
}

/// Appends the answer line, and for a satisfying assignment its `v` lines, of at most 78 bytes, if `witness` is true. If memory is refused,
/// `out` is as before.
pub fn answer_lines(answer: Answer, witness: bool, out: &mut Vec<u8>) -> Result<(), AllocError>
    ensures ok { OnOk result (out.new.items ≡ out.old.items ++ Lines answer.entry witness) }
    ensures err { OnErr result (out.new.items ≡ out.old.items) }
{
    let len = out.len();
    let written = put_answer(out, answer, witness);
    if written.is_err() {
        out.truncate(len);
    }
    written
}
