//! What is printed of an answer in a session, and the status of the answer.

ghost use Rattle.std.specs.Prelude.{◌≡◌, ◌≤◌, ◌∷◌, ◌++◌, ℕ, List, length, take, codes, IfOk, OnOk};
ghost use Rattle.std.specs.Fmt.{signed_decimal};
ghost use Rattle.commands.specs.SessionLines.{answer_text, core_filled, core_lines, cut, failed_lines, status_of as status};
ghost use Rattle.dimacs.specs.logic.Literal.{number_of};
ghost use Rattle.dimacs.specs.text.Answer.{satisfied_lines};

use dimacs::{Assignment, Lit, answer_lines};
use incremental::Answer;
use itoa::Buffer;
use std::alloc::AllocError;

/// The most bytes of an `f` line, its LF not counted.
const WIDTH: usize = 78;

/// Appends an item to an `f` line that has `used` bytes, after a space, or to a new line if the line would have more than 78 bytes. Answers
/// how many bytes the line of the item has then.
fn put_item(out: &mut Vec<u8>, used: usize, item: &[u8]) -> Result<usize, AllocError>
    requires used { used ≤ 78 }
    requires item { length item.now ≤ 40 }
    ensures filled { IfOk result (λ n. (more : List (List ℕ)) → out.new.items ++ core_filled n more ≡ out.old.items ++ core_filled used (item.now ∷ more)) }
    ensures used { IfOk result (λ n. n ≤ 78) }
{
    let wide = used + 1 + item.len();
    if wide <= WIDTH {
        out.push(b' ')?;
        out.extend_from_slice(item)?;
        return Ok(wide);
    }
    out.extend_from_slice(b"\nf ")?;
    out.extend_from_slice(item)?;
    Ok(2 + item.len())
}

/// Appends a literal to an `f` line that has `used` bytes, after a space, or to a new line if the line would have more than 78 bytes.
/// Answers how many bytes the line of the literal has then.
fn put_literal(out: &mut Vec<u8>, used: usize, literal: Lit) -> Result<usize, AllocError>
    requires used { used ≤ 78 }
    ensures filled { IfOk result (λ n. (more : List (List ℕ)) → out.new.items ++ core_filled n more ≡ out.old.items ++ core_filled used (signed_decimal (number_of literal) ∷ more)) }
    ensures used { IfOk result (λ n. n ≤ 78) }
{
    let mut buffer = Buffer::new();
    let text = buffer.format(literal.number());
    put_item(out, used, text.as_bytes())
}

/// Appends the `f` lines of a core, each of at most 78 bytes: its literals, and then 0.
fn put_core(out: &mut Vec<u8>, core: &[Lit]) -> Result<(), AllocError>
    ensures { OnOk result (out.new.items ≡ out.old.items ++ core_lines core.now) }
{
    out.push(b'f')?;
    let mut used = 1;
    for literal in core {
        used = put_literal(out, used, *literal)?;
    }
    let _ = put_item(out, used, b"0")?;
    out.push(b'\n')?;
    Ok(())
}

/// Appends what is printed of a core: the `s` line, and its `f` lines if `witness`.
fn put_failed(out: &mut Vec<u8>, core: &[Lit], witness: bool) -> Result<(), AllocError>
    ensures { OnOk result (out.new.items ≡ out.old.items ++ failed_lines core.now witness) }
{
    out.extend_from_slice(b"s UNSATISFIABLE\n")?;
    if witness {
        put_core(out, core)?;
    }
    Ok(())
}

/// Copies the values of the variables from 1 to `vars`, those that the session's events name: the
/// search may have more variables. If the assignment has fewer, all of its values.
fn front_of(out: &Vec<u8>, values: &Assignment, vars: u32) -> Result<Assignment, AllocError>
    ensures { IfOk result (λ front. front ≡ take vars values.now) }
{
    let count = values.len().min(vars as usize);
    let front = Vec::from_slice(*out.allocator(), &values.values()[..count])?;
    Ok(Assignment::new(front))
}

/// Appends what is printed of an assignment: the `s` line, and if `witness` the `v` lines of the variables from 1 to `vars`.
fn put_satisfied(
    out: &mut Vec<u8>,
    values: &Assignment,
    vars: u32,
    witness: bool,
) -> Result<(), AllocError>
    ensures { OnOk result (out.new.items ≡ out.old.items ++ satisfied_lines (take vars values.now) witness) }
{
    let front = front_of(out, values, vars)?;
    answer_lines(dimacs::Answer::Satisfiable(&front), witness, out)
}

/// Appends what is printed of an answer: its `s` line, and if `witness` the `v` lines of the variables from 1 to `vars`, or the `f` lines
/// of the core.
pub(crate) fn put_answer(
    out: &mut Vec<u8>,
    answer: &Answer,
    vars: u32,
    witness: bool,
) -> Result<(), AllocError>
    ensures { OnOk result (out.new.items ≡ out.old.items ++ answer_text witness (cut vars answer.now)) }
{
    match answer {
        Answer::Satisfied(values) => put_satisfied(out, values, vars, witness),
        Answer::Failed(failure) => put_failed(out, &failure.core, witness),
        Answer::Unknown => out.extend_from_slice(b"s UNKNOWN\n"),
    }
}

/// Answers the exit status of an answer: 10 if the query is satisfiable, 20 if it is not, 0 if that is not known.
pub(crate) fn status_of(answer: &Answer) -> u8
    ensures { result ≡ status answer.now }
{
    match answer {
        Answer::Satisfied(_) => 10,
        Answer::Failed(_) => 20,
        Answer::Unknown => 0,
    }
}
