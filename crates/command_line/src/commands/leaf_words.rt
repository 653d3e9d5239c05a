//! The words of a leaf, which several commands share, and the number that they give.

ghost use Rattle.std.specs.Prelude.{◌-◌, ◌^◌, ℕ, Option, IfSome, IfNone};
ghost use Rattle.command_line.specs.CommandLine.{IsLeafNumber, NamesAnyNumber, NamesLeaf};

use crate::commands::words::{is_named, number_of};
use option_table::{Found, Need, Word};

/// The greatest number of a leaf.
pub(crate) const LAST_LEAF: u64 = 4_294_967_295;

/// The word of the file of cubes.
pub(crate) const CUBES: Word<'static> = Word::NamedFile {
    name: "cubes",
    required: true,
    help: "The cubes, an iCNF file that is read, whose clauses are those of INPUT",
};

/// The word of a leaf, by the number of its cube.
pub(crate) const LEAF: Word<'static> = Word::Number {
    name: "leaf",
    low: 1,
    high: LAST_LEAF,
    need: Need::Required,
    help: "The leaf, by the number of its cube in that file, from 1 to 4294967295",
};

/// The number that `--leaf` gives; None if it is not given, or out of range.
pub(crate) fn leaf_of(given: &Found) -> Option<u32>
    ensures found { IfSome result (NamesLeaf given.now.rows) }
    ensures none { IfNone result ((leaf : ℕ) → NamesLeaf given.now.rows leaf → ⊥) }
    ensures range { IfSome result IsLeafNumber }
{
    let leaf = number_of(given, "leaf", 1, LAST_LEAF)?;
    Some(leaf as u32)
}

/// The number of a leaf that an option gives; the inner None if the option is not given, the outer
/// one if its value is out of range.
pub(crate) fn leaf_or_none(given: &Found, name: &str) -> Option<Option<u32>>
    ensures found { IfSome result (NamesAnyNumber given.now.rows name.now 1 (2 ^ 32 - 1)) }
    ensures none { IfNone result ((leaf : Option ℕ) → NamesAnyNumber given.now.rows name.now 1 (2 ^ 32 - 1) leaf → ⊥) }
    ensures range { IfSome result (λ leaf. IfSome leaf IsLeafNumber) }
{
    if !is_named(given, name) {
        return Some(None);
    }
    let leaf = number_of(given, name, 1, LAST_LEAF)?;
    Some(Some(leaf as u32))
}
