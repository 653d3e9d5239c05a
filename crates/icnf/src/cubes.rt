//! Reading the tokens of cubes: each function takes one token, or answers the fault that it has.

ghost use Rattle.std.specs.Prelude.{◌≡◌, ◌≢◌};
ghost use Rattle.dimacs.specs.inner.Rows.{Gives};
ghost use Rattle.icnf.specs.Parser.{no_memory};
ghost use Rattle.icnf.specs.inner.Cubes.{begin_cube, end_cube, read_literal};

use crate::fault::{IcnfFault, Kind};
use crate::walk::{Stage, Walk};
use dimacs::Lit;

/// Takes the `a` that begins a cube; a 65,537th cube is the fault `AboveLimit`.
#[tactic(auto, unfolding(crate::specs::inner::Cubes::begin_cube))]
pub(crate) fn begin_cube(walk: &mut Walk, line: u64) -> Result<(), IcnfFault>
    requires { walk.old.stage ≢ Stage.Complete }
    ensures { Gives no_memory walk.new result (begin_cube line walk.old) }
{
    if walk.cubes() >= 65_536 {
        return Err(IcnfFault {
            kind: Kind::AboveLimit,
            line,
        });
    }
    walk.begin();
    Ok(())
}

/// Takes the 0 that ends a cube; `NotATree` if a literal must still follow.
#[tactic(auto, unfolding(crate::specs::inner::Cubes::end_cube))]
pub(crate) fn end_cube(walk: &mut Walk, line: u64) -> Result<(), IcnfFault>
    requires { walk.old.stage ≡ Stage.Inside }
    ensures { Gives no_memory walk.new result (end_cube line walk.old) }
{
    if !walk.may_end() {
        return Err(IcnfFault {
            kind: Kind::NotATree,
            line,
        });
    }
    walk.end()?;
    Ok(())
}

/// Takes a literal of a cube. A second literal of a variable is `RepeatedVariable`, a literal other than the one that must come is
/// `NotATree`, and a 65th literal is `CubeTooLong`.
#[tactic(auto, unfolding(crate::specs::inner::Cubes::read_literal))]
pub(crate) fn read_literal(walk: &mut Walk, line: u64, literal: Lit) -> Result<(), IcnfFault>
    requires { walk.old.stage ≡ Stage.Inside }
    ensures { Gives no_memory walk.new result (read_literal line literal walk.old) }
{
    if walk.names(literal) {
        return Err(IcnfFault {
            kind: Kind::RepeatedVariable,
            line,
        });
    }
    if !walk.fits(literal) {
        return Err(IcnfFault {
            kind: Kind::NotATree,
            line,
        });
    }
    if walk.len() >= 64 {
        return Err(IcnfFault {
            kind: Kind::CubeTooLong,
            line,
        });
    }
    walk.push(literal)?;
    Ok(())
}
