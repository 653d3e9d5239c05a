//! Cubes in one vector of literals: each cube is a span of the vector.

ghost use Rattle.std.specs.Prelude.{◌≡◌, ◌+◌, ◌-◌, ◌^◌, ◌<◌, ◌≤◌, [], ◌∷◌, ◌++◌, length, slice_index_or, vec_len, vec_capacity, OnOk, OnErr};
ghost use Rattle.icnf.specs.Leaves.{branched};
ghost use Rattle.icnf.specs.Spans.{cube_in, cubes_in};
ghost use Rattle.icnf.specs.inner.Spans.{IsSpan, AreSpans};
ghost use Rattle.icnf.specs.Walk.{literals_of};

use crate::place::Place;
use dimacs::{Lit, Var};
use std::alloc::AllocError;

/// Where a cube lies in the vector of literals.
#[derive(Clone, Copy)]
pub(crate) struct Span {
    /// The index of the cube's first literal.
    pub(crate) from: u32,
    /// The index after the cube's last literal.
    pub(crate) to: u32,
}

/// Appends the literals of the cube `leaf` and one more literal, and answers the span of the new cube. The vector has the capacity.
fn append_branch(literals: &mut Vec<Lit>, leaf: Span, branch: Lit) -> Span
    requires leaf { IsSpan (vec_len literals.old) leaf }
    requires room { vec_len literals.old + (leaf.to - leaf.from + 1) ≤ vec_capacity literals.old }
    requires limit { vec_len literals.old + 65 < 2 ^ 32 }
    ensures items { literals.new.items ≡ literals.old.items ++ (cube_in literals.old.items leaf ++ branch ∷ []) }
    ensures len { vec_len literals.new ≡ vec_len literals.old + (leaf.to - leaf.from + 1) }
    ensures capacity { vec_capacity literals.old ≤ vec_capacity literals.new }
    ensures from { result.from ≡ vec_len literals.old }
    ensures to { result.to ≡ vec_len literals.new }
{
    let from = literals.len() as u32;
    literals
        .extend_from_within(leaf.from as usize..leaf.to as usize)
        .unwrap();
    literals.push(branch).unwrap();
    Span {
        from,
        to: literals.len() as u32,
    }
}

/// Replaces cube `i` (from 0) by its two branches on a variable, the positive one first. If memory is refused, the cubes are as before.
pub(crate) fn branch(
    literals: &mut Vec<Lit>,
    spans: &mut Vec<Span>,
    i: usize,
    var: Var,
) -> Result<(), AllocError>
    requires lie { AreSpans literals.old.items spans.old.items }
    requires leaf { i < vec_len spans.old }
    requires limit { vec_len spans.old < 65536 }
    requires short { length (slice_index_or (cubes_in literals.old.items spans.old.items) i []) < 64 }
    ensures lie { AreSpans literals.new.items spans.new.items }
    ensures ok { OnOk result (cubes_in literals.new.items spans.new.items ≡ branched i var (cubes_in literals.old.items spans.old.items)) }
    ensures err { OnErr result (cubes_in literals.new.items spans.new.items ≡ cubes_in literals.old.items spans.old.items) }
{
    let leaf = spans[i];
    let len = (leaf.to - leaf.from) as usize;
    literals.reserve(2 * (len + 1))?;
    spans.reserve(1)?;
    let left = append_branch(literals, leaf, Lit::positive(var));
    let right = append_branch(literals, leaf, Lit::negative(var));
    spans[i] = left;
    spans.insert(i + 1, right).unwrap();
    Ok(())
}

/// Lends the literals of cube `i`, from 0.
pub(crate) fn cube_at<'a>(literals: &'a [Lit], spans: &[Span], i: usize) -> &'a [Lit]
    requires lie { AreSpans literals.now spans.now }
    requires below { i < length spans.now }
    ensures { result.now ≡ slice_index_or (cubes_in literals.now spans.now) i [] }
{
    let span = spans[i];
    &literals[span.from as usize..span.to as usize]
}

/// Appends the cube of a path of decisions. If memory is refused, the cubes are as before.
pub(crate) fn push_cube(
    literals: &mut Vec<Lit>,
    spans: &mut Vec<Span>,
    path: &[Place],
) -> Result<(), AllocError>
    requires lie { AreSpans literals.old.items spans.old.items }
    requires room { vec_len spans.old < 65536 }
    requires short { length path.now ≤ 64 }
    ensures lie { AreSpans literals.new.items spans.new.items }
    ensures ok { OnOk result (cubes_in literals.new.items spans.new.items ≡ cubes_in literals.old.items spans.old.items ++ literals_of path.now ∷ []) }
    ensures err { OnErr result (cubes_in literals.new.items spans.new.items ≡ cubes_in literals.old.items spans.old.items) }
{
    literals.reserve(path.len())?;
    spans.reserve(1)?;
    let from = literals.len() as u32;
    append_literals(literals, path);
    let to = literals.len() as u32;
    spans.push(Span { from, to }).unwrap();
    Ok(())
}

/// Appends a cube. If memory is refused, the cubes are as before.
pub(crate) fn push_literals(
    literals: &mut Vec<Lit>,
    spans: &mut Vec<Span>,
    cube: &[Lit],
) -> Result<(), AllocError>
    requires lie { AreSpans literals.old.items spans.old.items }
    requires room { vec_len spans.old < 65536 }
    requires short { length cube.now ≤ 64 }
    ensures lie { AreSpans literals.new.items spans.new.items }
    ensures ok { OnOk result (cubes_in literals.new.items spans.new.items ≡ cubes_in literals.old.items spans.old.items ++ cube.now ∷ []) }
    ensures err { OnErr result (cubes_in literals.new.items spans.new.items ≡ cubes_in literals.old.items spans.old.items) }
{
    literals.reserve(cube.len())?;
    spans.reserve(1)?;
    let from = literals.len() as u32;
    literals.extend_from_slice(cube).unwrap();
    let to = literals.len() as u32;
    spans.push(Span { from, to }).unwrap();
    Ok(())
}

/// Appends the literals of a path of decisions. The vector has the capacity.
fn append_literals(literals: &mut Vec<Lit>, path: &[Place])
    requires { vec_len literals.old + length path.now ≤ vec_capacity literals.old }
    ensures items { literals.new.items ≡ literals.old.items ++ literals_of path.now }
    ensures len { vec_len literals.new ≡ vec_len literals.old + length path.now }
{
    for place in path {
        literals.push(place.literal).unwrap();
    }
}
