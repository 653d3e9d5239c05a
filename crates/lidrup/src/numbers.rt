//! Translates foreign numbers of hints and deletions to numbers of the log.

ghost use Rattle.std.specs.Prelude.{◌≡◌, ◌≤◌, ◌++◌, ◌∷◌, [], All, OnErr, OnOk, IfOk, Some, None, if◌then◌else◌, vec_capacity, vec_len};
ghost use Rattle.lrat_text.specs.Grammar.{IsClauseNumber};
ghost use Rattle.lidrup.specs.Lidrup.{forgotten, own_numbers};
ghost use Rattle.lidrup.specs.View.{names_of};

use crate::log_number::LogNumber;
use crate::names::Names;
use std::alloc::AllocError;

/// Appends a number of the log. Memory is refused only if the vector was full, as the contract
/// tells callers.
pub(crate) fn put(number: LogNumber, numbers: &mut Vec<u64>) -> Result<(), AllocError>
    requires { All IsClauseNumber numbers.old.items }
    ensures put { OnOk result (numbers.new.items ≡ numbers.old.items ++ number.number ∷ []) }
    ensures only { OnErr result (vec_capacity numbers.old ≤ vec_len numbers.old) }
    ensures all { OnOk result (All IsClauseNumber numbers.new.items) }
{
    numbers.push(number.number)?;
    Ok(())
}

/// Leaves the log's numbers of the hints in `numbers`, and tells whether each hint names a clause.
pub(crate) fn translate(
    names: &Names,
    hints: &[u64],
    numbers: &mut Vec<u64>,
) -> Result<bool, AllocError>
    ensures numbers { IfOk result (λ b. own_numbers (names_of names.now) [] hints.now ≡ (if b then Some numbers.new.items else None)) }
    ensures all { OnOk result (All IsClauseNumber numbers.new.items) }
{
    numbers.clear();
    for hint in hints {
        match names.get(*hint) {
            Some(number) => put(number, numbers)?,
            None => return Ok(false),
        }
    }
    Ok(true)
}

/// Removes the foreign numbers `ids`, which a line deletes. Leaves in `numbers` the log's numbers
/// to delete: those of lemmas, which are above `clauses`, since the log keeps the formula's
/// clauses.
pub(crate) fn forget(
    names: &mut Names,
    clauses: u64,
    ids: &[u64],
    numbers: &mut Vec<u64>,
) -> Result<(), AllocError>
    ensures names { OnOk result (forgotten clauses (names_of names.old) [] ids.now ≡ (names_of names.new, numbers.new.items)) }
    ensures all { OnOk result (All IsClauseNumber numbers.new.items) }
{
    numbers.clear();
    for id in ids {
        match names.get(*id) {
            Some(number) => {
                if clauses < number.number {
                    put(number, numbers)?;
                }
            }
            None => {}
        }
        names.remove(*id);
    }
    Ok(())
}
