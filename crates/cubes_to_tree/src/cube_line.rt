//! Reads the cube of a line, token by token.

ghost use Rattle.std.specs.Prelude.{◌≡◌, ◌<◌, ℕ, List, [], false, true, option_map, MatchResult};
ghost use Rattle.cubes_to_tree.specs.CubeList.{cube_of, has_variable, read_literal, read_token, read_tokens};
ghost use Rattle.cubes_to_tree.specs.inner.Cubes.{IsCube};
ghost use Rattle.dimacs.specs.inner.Capped.{capped};
ghost use Rattle.dimacs.specs.inner.Rows.{Gives};
ghost use Rattle.dimacs.specs.logic.Literal.{var_of};
ghost use Rattle.dimacs.specs.text.Numbers.{number};
ghost use Rattle.dimacs.specs.text.Rows.{Fails};
ghost use Rattle.dimacs.specs.text.Words.{words};
ghost use Rattle.icnf.specs.Parser.{no_memory};

use dimacs::Lit;
use dimacs::number::{Number, next_number};
use icnf::{IcnfFault, Kind};
use std::alloc::Global;
use std::marker::Model;

/// The most literals that a cube may have.
const LITERALS: usize = 64;

/// What is read of a cube after its `a`.
#[derive(Drop)]
pub(crate) struct CubeLine {
    /// The literals that are read, no two of one variable.
    literals: Vec<Lit>,
    /// Whether the `0` was read.
    ended: bool,
}

impl Model for CubeLine {
    ghost use Rattle.cubes_to_tree.specs.CubeList.{CubeRead};

    ghost Value = { CubeRead };

    ghost view = { λ c. record { literals = c.literals.items; ended = c.ended } };
}

/// The fault of this kind in the line of this number, from 1.
fn fault(kind: Kind, line: u64) -> IcnfFault
    ensures { result ≡ record { kind = kind; line = line } }
{
    IcnfFault { kind, line }
}

/// Answers whether one of the literals has this variable.
fn has_variable(literals: &[Lit], variable: u32) -> bool
    ensures { result ≡ has_variable literals.now variable }
{
    literals.iter().any(|l| l.var().number() == variable)
}

impl CubeLine {
    /// A cube of which no token is read.
    fn new(alloc: Global) -> CubeLine
        ensures { result ≡ record { literals = []; ended = false } }
    {
        CubeLine {
            literals: Vec::new(alloc),
            ended: false,
        }
    }

    /// Appends a literal to the cube. Err if its variable is above `greatest` or in the cube
    /// already, or the cube has 64 literals.
    fn read_literal(&mut self, greatest: u32, line: u64, literal: Lit) -> Result<(), IcnfFault>
        ensures { Gives no_memory self.new result (read_literal greatest line literal self.old) }
    {
        let variable = literal.var().number();
        if greatest < variable {
            return Err(fault(Kind::VariableAboveClauses, line));
        }
        if has_variable(&self.literals, variable) {
            return Err(fault(Kind::RepeatedVariable, line));
        }
        if self.literals.len() >= LITERALS {
            return Err(fault(Kind::CubeTooLong, line));
        }
        self.literals.push(literal)?;
        Ok(())
    }

    /// Reads a token, by the number that it spells; `None` if it spells none. Err if it spells none, comes after the `0`, or its literal is
    /// refused.
    fn read_token(
        &mut self,
        greatest: u32,
        line: u64,
        found: Option<Number>,
    ) -> Result<(), IcnfFault>
        requires { greatest < 100000000 }
        ensures { (word : List ℕ) → found ≡ option_map capped (number word) → Gives no_memory self.new result (read_token greatest line word self.old) }
    {
        if self.ended {
            return Err(fault(Kind::BadToken, line));
        }
        let Some(number) = found else {
            return Err(fault(Kind::BadToken, line));
        };
        if number.size == 0 {
            self.ended = true;
            return Ok(());
        }
        if number.size > greatest {
            return Err(fault(Kind::VariableAboveClauses, line));
        }
        self.read_literal(greatest, line, number.literal())
    }

    /// Reads the tokens of `text`, which is in the line of this number, from 1. Err is their first fault.
    fn read(&mut self, greatest: u32, line: u64, text: &[u8]) -> Result<(), IcnfFault>
        requires { greatest < 100000000 }
        ensures { Gives no_memory self.new result (read_tokens greatest line (words text.now) self.old) }
    {
        let mut rest = text;
        while let Some((number, after)) = next_number(rest) {
            self.read_token(greatest, line, number)?;
            rest = after;
        }
        Ok(())
    }

    /// Ends the line, and answers the cube. Err if the `0` was not read.
    fn finish(self, line: u64) -> Result<Vec<Lit>, IcnfFault>
        ensures { MatchResult result (λ q. (self.ended ≡ true) × (q.items ≡ self.literals)) (λ f. (self.ended ≡ false) × (f ≡ record { kind = Kind.ClauseNotEnded; line = line })) }
    {
        let CubeLine { literals, ended } = self;
        if ended {
            Ok(literals)
        } else {
            Err(fault(Kind::ClauseNotEnded, line))
        }
    }
}

/// Reads the cube that the tokens after an `a` spell, with variables up to `greatest`, in the line of this number, from 1. Err is the first
/// fault.
pub(crate) fn cube_of(
    alloc: Global,
    greatest: u32,
    line: u64,
    text: &[u8],
) -> Result<Vec<Lit>, IcnfFault>
    requires { greatest < 100000000 }
    ensures { MatchResult result
        (λ q. (cube_of greatest line (words text.now) ≡ Ok q.items) × IsCube greatest q.items)
        (λ f. Fails no_memory f (cube_of greatest line (words text.now))) }
{
    let mut cube = CubeLine::new(alloc);
    cube.read(greatest, line, text)?;
    cube.finish(line)
}
