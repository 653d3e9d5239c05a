//! The numbers of a log's clauses: at least 1, and below 2^48.

ghost use Rattle.std.specs.Prelude.{◌≡◌, ◌≤◌, ◌+◌, ◌^◌, IfOk, IfErr, OnErr};
ghost use Rattle.lrat_text.specs.Grammar.{IsClauseNumber};
ghost use Rattle.lidrup.specs.declared.fault.LineFault.TheVariants.{NoMemory};

use crate::fault::LineFault;

/// Each clause number is below this.
const LIMIT: u64 = 1 << 48;

/// The number of a clause of the log: 1 at least, and below 2^48.
#[derive(Clone, Copy)]
pub(crate) struct LogNumber {
    pub(crate) number: u64,
    ghost numbered: { IsClauseNumber number },
}

/// Returns the number after `top`. If it is 2^48 or more, and only then, the answer is `NoMemory`.
pub(crate) fn number_after(top: u64) -> Result<LogNumber, LineFault>
    ensures number { IfOk result (λ n. n.number ≡ top + 1) }
    ensures memory { IfErr result (λ f. f ≡ NoMemory) }
    ensures only { OnErr result (2 ^ 48 ≤ top + 1) }
{
    if top >= LIMIT - 1 {
        return Err(LineFault::NoMemory);
    }
    Ok(LogNumber { number: top + 1 })
}
