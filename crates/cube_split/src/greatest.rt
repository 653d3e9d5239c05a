//! The unmarked variable that has the greatest count.

ghost use Rattle.std.specs.Prelude.{◌≡◌, ℕ, ◌+◌, ◌-◌, ◌*◌, ◌<◌, ◌≤◌, ◌||◌, length, slice_index, slice_index_or, Bool, true, false, Option, IfSome, IfNone, not};
ghost use Rattle.cube_split.specs.inner.Marks.{IsUnmarked, IsGreatest, IsAhead, IsAheadOf};
ghost use Rattle.cube_split.specs.inner.Tallies.{AreListed};

use dimacs::Var;

/// Whether neither literal of a variable is marked.
pub(crate) fn is_unmarked(marks: &[bool], var: Var) -> bool
    requires { 2 * var + 1 < length marks.now }
    ensures { result ≡ not (slice_index_or marks.now (2 * var) false || slice_index_or marks.now (2 * var + 1) false) }
{
    let row = 2 * var.number() as usize;
    !(marks[row] || marks[row + 1])
}

/// Whether a variable is better than the best so far: its count is greater, or the same and its number lower; if there is none so far,
/// whether its count is above 0.
fn is_ahead(counts: &[usize], var: Var, best: &Option<Var>) -> bool
    requires var { var < length counts.now }
    requires best { IfSome best.now (λ b. b < length counts.now) }
    ensures yes { result ≡ true → IsAheadOf counts.now var best.now }
    ensures no { result ≡ false → IsAheadOf counts.now var best.now → ⊥ }
{
    let count = counts[var.number() as usize];
    match best {
        None => count > 0,
        Some(other) => {
            let before = counts[other.number() as usize];
            count > before || count == before && var.number() < other.number()
        }
    }
}

/// The unmarked variable that has the greatest count, and of several the lowest; None if every such count is 0. `variables` lists every
/// variable whose count is above 0.
pub(crate) fn greatest(marks: &[bool], counts: &[usize], variables: &[Var]) -> Option<Var>
    requires size { length marks.now ≡ 2 * length counts.now }
    requires listed { AreListed counts.now variables.now }
    ensures some { IfSome result (IsGreatest marks.now counts.now (length counts.now - 1)) }
    ensures none { IfNone result ((w : ℕ) → 0 < w → w < length counts.now → IsUnmarked marks.now w → slice_index counts.now w ≡ 0) }
{
    let mut best = None;
    for &var in variables {
        if is_ahead(counts, var, &best) && is_unmarked(marks, var) {
            best = Some(var);
        }
    }
    best
}
