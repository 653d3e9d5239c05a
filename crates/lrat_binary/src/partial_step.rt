//! The step that is being read: what its bytes have given so far. Its vectors are used again for the next step.

ghost use Rattle.std.specs.Prelude.{◌≡◌, ◌<◌, ◌≤◌, IfOk, length, if◌then◌else◌};
ghost use Rattle.dimacs.specs.logic.Literal.{Neg, Pos};
ghost use Rattle.lrat_text.specs.Steps.{step_of};
ghost use Rattle.lrat_binary.specs.Parser.{AtId, AtLiterals, AtHints, AtDeleted, BetweenStepsWithin, byte_taken, letter_taken, number_taken, hint_taken, literal_taken, token_of, after_byte};
ghost use Rattle.lrat_binary.specs.inner.ShortNumber.{SkipsTo};
ghost use Rattle.lrat_binary.specs.PartialStep.{prefix_of, state_of};
ghost use Rattle.lrat_binary.specs.inner.ByteTaken.{IsPositive, step_held, Tells};

use crate::leb128::{LAST_WEIGHT, Number};
use crate::limit::Limit;
use crate::short_number::{take_literals, take_numbers};
use crate::token::{Token, token_of};
use dimacs::{Lit, Var};
use lrat_text::{Groups, StepRef, TextFault};
use std::alloc::{AllocError, Global};

/// The list of a step to which the next number belongs.
#[derive(Clone, Copy)]
pub(crate) enum Place {
    /// The number of an addition.
    Id,
    /// The literals of an addition.
    Literals,
    /// The hints and the groups of an addition.
    Hints,
    /// The clause numbers of a deletion.
    Deleted,
}

/// Whether a byte completes the step.
#[derive(Clone, Copy)]
pub(crate) enum Taken {
    /// The step is not complete.
    More,
    /// The step is a complete addition.
    Addition,
    /// The step is a complete deletion.
    Deletion,
}

/// A step that is partly read. Between two steps, `place` is `None`, and the other fields except `limit` mean nothing.
pub(crate) struct PartialStep {
    /// The greatest variable of the proof.
    pub(crate) limit: Limit,
    /// The list to which the next number belongs; `None` between two steps.
    pub(crate) place: Option<Place>,
    /// The bytes of the next number so far.
    pub(crate) number: Number,
    /// The number of an addition, once it has been read.
    pub(crate) id: u64,
    /// The literals of an addition so far.
    pub(crate) literals: Vec<Lit>,
    /// The hints of an addition before its groups, or the numbers of a deletion, so far.
    pub(crate) numbers: Vec<u64>,
    /// The groups of an addition so far.
    pub(crate) groups: Groups,
}

// By hand, so that an owner's proof has one call for the drop, and does not unfold the fields.
impl Drop for PartialStep {
    fn drop(self) {
        let PartialStep {
            limit: _,
            place: _,
            number: _,
            id: _,
            literals: _,
            numbers: _,
            groups: _,
        } = self;
    }
}

/// Makes the literal of a variable's number (1 to 199,999,999) and its sign.
#[inline(always)]
pub(crate) fn literal_of(number: u64, is_negative: bool) -> Lit
    requires { (1 ≤ number) × (number ≤ 199999999) }
    ensures { result ≡ if is_negative then Neg number else Pos number }
{
    let literal = Lit::positive(Var::new(number as u32));
    if is_negative {
        literal.negate()
    } else {
        literal
    }
}

impl PartialStep {
    /// A reader's state before the first step of a proof with variables up to `most`.
    pub(crate) fn within(alloc: Global, most: u32) -> PartialStep
        requires { most ≤ 199999999 }
        ensures { state_of result ≡ BetweenStepsWithin most }
    {
        PartialStep {
            limit: Limit { most },
            place: None,
            number: Number::new(),
            id: 0,
            literals: Vec::new(alloc),
            numbers: Vec::new(alloc),
            groups: Groups::new(alloc),
        }
    }

    /// Lends the complete step: a deletion if `is_deletion`, otherwise an addition.
    #[inline(always)]
    pub(crate) fn step(&self, is_deletion: bool) -> StepRef<'_>
        ensures { step_of result ≡ step_held is_deletion self.now }
    {
        if is_deletion {
            StepRef::Delete { ids: &self.numbers }
        } else {
            StepRef::Add {
                id: self.id,
                lits: &self.literals,
                hints: &self.numbers,
                groups: &self.groups,
            }
        }
    }

    /// Stores the number of an addition; `BadToken` if it is no clause number.
    fn take_id(&mut self, token: Token) -> Result<Taken, TextFault>
        ensures { Tells (number_taken (AtId self.old.limit.most) token) result self.new }
    {
        match token {
            Token::Plus(id) => {
                self.id = id;
                self.literals.clear();
                self.place = Some(Place::Literals);
                self.number = Number::new();
                Ok(Taken::More)
            }
            _ => Err(TextFault::BadToken),
        }
    }

    /// Appends a literal to an addition; a variable above the limit is refused (`NumberTooLarge`).
    fn push_literal(&mut self, variable: u64, is_negative: bool) -> Result<Taken, TextFault>
        requires { 1 ≤ variable }
        ensures { Tells (literal_taken self.old.limit.most self.old.id self.old.literals.items variable (if is_negative then Neg variable else Pos variable)) result self.new }
    {
        if variable > u64::from(self.limit.most) {
            return Err(TextFault::NumberTooLarge);
        }
        self.literals.push(literal_of(variable, is_negative))?;
        self.place = Some(Place::Literals);
        self.number = Number::new();
        Ok(Taken::More)
    }

    /// Takes a number among the literals: appends a literal, or ends their list at 0.
    fn take_literal(&mut self, token: Token) -> Result<Taken, TextFault>
        requires { IsPositive token }
        ensures { Tells (number_taken (AtLiterals self.old.limit.most self.old.id self.old.literals.items) token) result self.new }
    {
        match token {
            Token::End => {
                self.numbers.clear();
                self.groups.clear();
                self.place = Some(Place::Hints);
                self.number = Number::new();
                Ok(Taken::More)
            }
            Token::Plus(variable) => self.push_literal(variable, false),
            Token::Minus(variable) => self.push_literal(variable, true),
            Token::Other => Err(TextFault::BadToken),
        }
    }

    /// Appends a hint to the last group, or to the addition's own hints if it has no group yet.
    fn push_hint(&mut self, hint: u64) -> Result<Taken, TextFault>
        ensures { Tells (hint_taken self.old.limit.most self.old.id self.old.literals.items self.old.numbers.items self.old.groups hint) result self.new }
    {
        if self.groups.is_empty() {
            self.numbers.push(hint)?;
        } else {
            self.groups.push_hint(hint)?;
        }
        self.place = Some(Place::Hints);
        self.number = Number::new();
        Ok(Taken::More)
    }

    /// Takes a number among the hints: appends a hint, begins a group with its candidate, or ends the addition at 0.
    fn take_hint(&mut self, token: Token) -> Result<Taken, TextFault>
        ensures { Tells (number_taken (AtHints self.old.limit.most self.old.id self.old.literals.items self.old.numbers.items self.old.groups) token) result self.new }
    {
        match token {
            Token::End => Ok(Taken::Addition),
            Token::Plus(hint) => self.push_hint(hint),
            Token::Minus(candidate) => {
                self.groups.push(candidate, &[])?;
                self.place = Some(Place::Hints);
                self.number = Number::new();
                Ok(Taken::More)
            }
            Token::Other => Err(TextFault::BadToken),
        }
    }

    /// Takes a number of a deletion: appends a clause number, or ends the deletion at 0.
    fn take_deleted(&mut self, token: Token) -> Result<Taken, TextFault>
        ensures { Tells (number_taken (AtDeleted self.old.limit.most self.old.numbers.items) token) result self.new }
    {
        match token {
            Token::End => Ok(Taken::Deletion),
            Token::Plus(id) => {
                self.numbers.push(id)?;
                self.place = Some(Place::Deleted);
                self.number = Number::new();
                Ok(Taken::More)
            }
            _ => Err(TextFault::BadToken),
        }
    }

    /// Takes a complete number, given by its code, that belongs to the list `place`.
    fn take_number(&mut self, place: Place, code: u64) -> Result<Taken, TextFault>
        ensures { Tells (number_taken (prefix_of place self.old) (token_of code)) result self.new }
    {
        let token = token_of(code);
        match place {
            Place::Id => self.take_id(token),
            Place::Literals => self.take_literal(token),
            Place::Hints => self.take_hint(token),
            Place::Deleted => self.take_deleted(token),
        }
    }

    /// Takes a byte of a number that belongs to the list `place`. A last byte 0 after another byte is `BadToken`; a number of more than
    /// seven bytes is `NumberTooLarge`.
    fn take_part(&mut self, place: Place, byte: u8) -> Result<Taken, TextFault>
        ensures { Tells (byte_taken (prefix_of place self.old) self.old.number.value self.old.number.weight byte) result self.new }
    {
        let number = self.number;
        if byte < 128 {
            if byte == 0 && number.weight > 1 {
                return Err(TextFault::BadToken);
            }
            return self.take_number(place, number.ended(byte));
        }
        if number.weight >= LAST_WEIGHT {
            return Err(TextFault::NumberTooLarge);
        }
        self.place = Some(place);
        self.number = number.longer(byte);
        Ok(Taken::More)
    }

    /// Takes the letter that begins a step: `a` for an addition, `d` for a deletion; another byte is `BadToken`.
    fn take_letter(&mut self, byte: u8) -> Result<Taken, TextFault>
        ensures { Tells (letter_taken self.old.limit.most byte) result self.new }
    {
        match byte {
            b'a' => {
                self.place = Some(Place::Id);
                self.number = Number::new();
                Ok(Taken::More)
            }
            b'd' => {
                self.numbers.clear();
                self.place = Some(Place::Deleted);
                self.number = Number::new();
                Ok(Taken::More)
            }
            _ => Err(TextFault::BadToken),
        }
    }

    /// Takes the next byte, and answers whether it completes the step. If it does, the caller must call `begin` before the next byte.
    pub(crate) fn take_byte(&mut self, byte: u8) -> Result<Taken, TextFault>
        ensures { Tells (after_byte (state_of self.old) byte) result self.new }
    {
        match self.place {
            None => self.take_letter(byte),
            Some(place) => self.take_part(place, byte),
        }
    }

    /// Forgets the complete step; the next byte begins another one.
    pub(crate) fn begin(&mut self)
        ensures { state_of self.new ≡ BetweenStepsWithin self.old.limit.most }
    {
        self.place = None;
    }

    /// Takes the short numbers at the beginning of a text, up to the first one that [`take_numbers`] or [`take_literals`] does not read,
    /// and answers the text from there on. It takes nothing if a number is partly read, if a letter or an addition's number comes next, or
    /// after the addition's first group has begun.
    #[inline(always)]
    pub(crate) fn take_short<'a>(&mut self, text: &'a [u8]) -> Result<&'a [u8], AllocError>
        ensures skips { IfOk result (λ rest. SkipsTo (state_of self.old) text.now (state_of self.new) rest.now) }
        ensures shorter { IfOk result (λ rest. length rest.now ≤ length text.now) }
    {
        if self.number.weight != 1 {
            return Ok(text);
        }
        match self.place {
            Some(Place::Literals) => take_literals(self.limit.most, &mut self.literals, text),
            Some(Place::Deleted) => take_numbers(&mut self.numbers, text),
            Some(Place::Hints) => {
                if self.groups.is_empty() {
                    take_numbers(&mut self.numbers, text)
                } else {
                    Ok(text)
                }
            }
            _ => Ok(text),
        }
    }
}
