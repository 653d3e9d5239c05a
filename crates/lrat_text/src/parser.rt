//! The parser of a line: reads its tokens from left to right into a [`StepBuffer`].

ghost use Rattle.std.specs.Prelude.{◌≡◌, if◌then◌else◌, ℕ, ◌<◌, ◌≤◌, List, [], length, IfSome, Ok, OnOk, IfOk};
ghost use Rattle.dimacs.specs.logic.Literal.{Literal, Neg, Pos};
ghost use Rattle.lrat_text.specs.Grammar.{SpellsStep, SpellsStepWithin};
ghost use Rattle.lrat_text.specs.Parser.{ended, ids_in, groups_in, hints_in, literals_in, body_in, first_within, step_in, step_within, line_tokens, is_trimmed, GivesStep, Gives};
ghost use Rattle.lrat_text.specs.inner.Tokens.{HasNumberInRange, tokens_from};
ghost use Rattle.lrat_text.specs.declared.step.Step.{Step};
ghost use Rattle.lrat_text.specs.declared.step.Step.TheVariants as owned;

use crate::fault::TextFault;
use crate::groups::Groups;
use crate::short_number::{next_plus, next_signed};
use crate::step::Step;
use crate::step_buffer::StepBuffer;
use crate::token::{Token, next_token};
use dimacs::{Lit, Var};
use std::alloc::{AllocError, Global};

/// The greatest variable of a step, unless the caller gives a limit.
const WRITTEN: u32 = 2_000_000;

/// Tests that only spaces follow the last `0`; `BadToken` otherwise.
fn read_end(text: &[u8]) -> Result<(), TextFault>
    ensures { (step : Step) → GivesStep step result (ended step (line_tokens text.now)) }
{
    match next_token(text) {
        None => Ok(()),
        Some(_) => Err(TextFault::BadToken),
    }
}

/// Appends hints up to the first token that [`next_plus`] does not read, and answers the text from that token on.
#[tactic(auto, unfolding(crate::specs::Parser::hints_in))]
#[inline(always)]
fn take_hints<'a>(hints: &mut Vec<u64>, text: &'a [u8]) -> Result<&'a [u8], AllocError>
    ensures { IfOk result (λ rest. (id : ℕ) (lits : List Literal) → hints_in id lits hints.new.items (line_tokens rest.now) ≡ hints_in id lits hints.old.items (line_tokens text.now)) }
{
    let mut rest = text;
    while let Some((n, after)) = next_plus(rest) {
        hints.push(n)?;
        rest = after;
    }
    Ok(rest)
}

/// Makes the literal of a variable's number (1 to 199,999,999) and its sign.
#[inline(always)]
fn literal_of(number: u64, is_negative: bool) -> Lit
    requires { (1 ≤ number) × (number ≤ 199999999) }
    ensures { result ≡ if is_negative then Neg number else Pos number }
{
    let literal = Lit::positive(Var::new(number as u32));
    if is_negative {
        literal.negate()
    } else {
        literal
    }
}

/// Appends literals up to the first token that is no short number or has a variable above `most`, and answers the text from that token on.
#[tactic(auto, unfolding(crate::specs::Parser::literals_in))]
#[inline(always)]
fn take_literals<'a>(
    most: u32,
    literals: &mut Vec<Lit>,
    text: &'a [u8],
) -> Result<&'a [u8], AllocError>
    requires { most ≤ 199999999 }
    ensures literals { IfOk result (λ rest. (id : ℕ) → literals_in most id literals.new.items (line_tokens rest.now) ≡ literals_in most id literals.old.items (line_tokens text.now)) }
    ensures shorter { IfOk result (λ rest. length rest.now ≤ length text.now) }
{
    let mut rest = text;
    while let Some((n, is_negative, after)) = next_signed(rest) {
        if n > u64::from(most) {
            return Ok(rest);
        }
        literals.push(literal_of(n, is_negative))?;
        rest = after;
    }
    Ok(rest)
}

/// Appends the clause numbers of a deletion up to `0`, after which only spaces may follow.
#[tactic(auto, unfolding(crate::specs::Parser::ids_in))]
fn read_ids(numbers: &mut Vec<u64>, text: &[u8]) -> Result<(), TextFault>
    ensures { GivesStep (owned.Delete numbers.new.items) result (ids_in numbers.old.items (line_tokens text.now)) }
{
    let mut rest = text;
    while let Some((token, after)) = next_token(rest) {
        match token {
            Token::Zero => return read_end(after),
            Token::Plus(n) => numbers.push(n)?,
            Token::LargePlus => return Err(TextFault::NumberTooLarge),
            _ => return Err(TextFault::BadToken),
        }
        rest = after;
    }
    Err(TextFault::MissingZero)
}

/// Appends hints to the last group, and further groups, up to `0`, after which only spaces may follow.
#[tactic(auto, using(crate::proofs::GroupLemmas::length_with_hint), unfolding(crate::specs::Parser::groups_in))]
fn read_groups(groups: &mut Groups, text: &[u8]) -> Result<(), TextFault>
    requires open { 0 < length groups.old }
    ensures { (id : ℕ) (lits : List Literal) (hints : List ℕ) → GivesStep (owned.Add id lits hints groups.new) result (groups_in id lits hints groups.old (line_tokens text.now)) }
{
    let mut rest = text;
    while let Some((token, after)) = next_token(rest) {
        match token {
            Token::Zero => return read_end(after),
            Token::Plus(n) => groups.push_hint(n)?,
            Token::Minus(n) => groups.push(n, &[])?,
            Token::LargePlus | Token::LargeMinus => return Err(TextFault::NumberTooLarge),
            Token::Letter | Token::Other => return Err(TextFault::BadToken),
        }
        rest = after;
    }
    Err(TextFault::MissingZero)
}

/// Appends the hints and the groups of an addition up to `0`, after which only spaces may follow.
#[tactic(auto, unfolding(crate::specs::Parser::hints_in))]
pub(crate) fn read_hints(
    numbers: &mut Vec<u64>,
    groups: &mut Groups,
    text: &[u8],
) -> Result<(), TextFault>
    requires none { groups.old ≡ [] }
    ensures { (id : ℕ) (lits : List Literal) → GivesStep (owned.Add id lits numbers.new.items groups.new) result (hints_in id lits numbers.old.items (line_tokens text.now)) }
{
    let mut rest = take_hints(numbers, text)?;
    while let Some((token, after)) = next_token(rest) {
        match token {
            Token::Zero => return read_end(after),
            Token::Plus(n) => numbers.push(n)?,
            Token::Minus(n) => {
                groups.push(n, &[])?;
                return read_groups(groups, after);
            }
            Token::LargePlus | Token::LargeMinus => return Err(TextFault::NumberTooLarge),
            Token::Letter | Token::Other => return Err(TextFault::BadToken),
        }
        rest = after;
    }
    Err(TextFault::MissingZero)
}

/// Appends the literals of an addition from the token `first` on, up to `0`; then reads its hints and groups. `first` is the token and the
/// text after it, or `None` at the line's end.
#[tactic(auto, unfolding(crate::specs::Parser::literals_in))]
fn read_literals(
    most: u32,
    literals: &mut Vec<Lit>,
    numbers: &mut Vec<u64>,
    groups: &mut Groups,
    first: Option<(Token, &[u8])>,
) -> Result<(), TextFault>
    requires no_hint { numbers.old.items ≡ [] }
    requires no_group { groups.old ≡ [] }
    requires counted { IfSome first (λ p. HasNumberInRange p.0) }
    requires most { most ≤ 199999999 }
    ensures { (id : ℕ) → GivesStep (owned.Add id literals.new.items numbers.new.items groups.new) result (literals_in most id literals.old.items (tokens_from first.entry)) }
{
    let mut next = first;
    while let Some((token, after)) = next {
        match token {
            Token::Zero => return read_hints(numbers, groups, after),
            Token::Plus(n) => {
                if n > u64::from(most) {
                    return Err(TextFault::NumberTooLarge);
                }
                literals.push(Lit::positive(Var::new(n as u32)))?;
            }
            Token::Minus(n) => {
                if n > u64::from(most) {
                    return Err(TextFault::NumberTooLarge);
                }
                literals.push(Lit::negative(Var::new(n as u32)))?;
            }
            Token::LargePlus | Token::LargeMinus => return Err(TextFault::NumberTooLarge),
            Token::Letter | Token::Other => return Err(TextFault::BadToken),
        }
        next = next_token(take_literals(most, literals, after)?);
    }
    Err(TextFault::MissingZero)
}

/// Answers whether a line is not empty, and has no space at its beginning or end.
fn is_trimmed(line: &[u8]) -> bool
    ensures { result ≡ is_trimmed line.now }
{
    if line.is_empty() {
        return false;
    }
    line[0] != b' ' && line[line.len() - 1] != b' '
}

impl StepBuffer {
    /// Reads the text after a line's number: `d` begins a deletion, everything else an addition with the number `id`.
    #[tactic(auto, unfolding(crate::specs::Parser::body_in))]
    fn read_body(&mut self, most: u32, id: u64, text: &[u8]) -> Result<(), TextFault>
        requires { most ≤ 199999999 }
        ensures { GivesStep self.new result (body_in most id (line_tokens text.now)) }
    {
        self.id = id;
        self.literals.clear();
        self.numbers.clear();
        self.groups.clear();
        let next = next_token(text);
        if let Some((Token::Letter, after)) = next {
            self.is_deletion = true;
            return read_ids(&mut self.numbers, after);
        }
        self.is_deletion = false;
        read_literals(
            most,
            &mut self.literals,
            &mut self.numbers,
            &mut self.groups,
            next,
        )
    }

    /// Reads a line that has no space at its beginning or end.
    #[tactic(auto, unfolding(crate::specs::Parser::first_within))]
    fn read_trimmed(&mut self, most: u32, line: &[u8]) -> Result<(), TextFault>
        requires { most ≤ 199999999 }
        ensures { GivesStep self.new result (first_within most (line_tokens line.now)) }
    {
        match next_token(line) {
            Some((Token::Plus(id), after)) => self.read_body(most, id, after),
            Some((Token::LargePlus, _)) => Err(TextFault::NumberTooLarge),
            _ => Err(TextFault::BadToken),
        }
    }

    /// Reads a line without its LF; `BadToken` if it is empty or has a space at its beginning or end.
    #[tactic(auto, unfolding(crate::specs::Parser::step_within))]
    fn read(&mut self, most: u32, line: &[u8]) -> Result<(), TextFault>
        requires { most ≤ 199999999 }
        ensures { GivesStep self.new result (step_within most line.now) }
    {
        if is_trimmed(line) {
            self.read_trimmed(most, line)
        } else {
            Err(TextFault::BadToken)
        }
    }
}

/// Reads a line without its LF into the buffer, with variables up to `most`. After a fault the buffer holds some step, which means nothing.
///
/// `BadToken` comes first if the line is empty or has a space at its beginning or end. Then, from left to right, `BadToken` comes at a
/// token that cannot stand where it does, and `NumberTooLarge` at a number that can but is above its limit. Then `MissingZero` comes if a
/// list is not ended by `0`. `NoMemory` comes only if a vector cannot grow.
pub fn read_line_within(buffer: &mut StepBuffer, most: u32, line: &[u8]) -> Result<(), TextFault>
    requires { most ≤ 199999999 }
    // At `Ok` the line spells the step that was read.
    ensures found { OnOk result (SpellsStepWithin most line.now buffer.new) }
    // The step that a line spells is read, unless memory is refused.
    ensures only { (step : Step) → SpellsStepWithin most line.now step → GivesStep buffer.new result (Ok step) }
    // The step, or the first fault.
    ensures exact { GivesStep buffer.new result (step_within most line.now) }
{
    buffer.read(most, line)
}

/// Reads a line without its LF into the buffer, with variables up to 2,000,000. The faults are those of [`read_line_within`].
pub fn read_line(buffer: &mut StepBuffer, line: &[u8]) -> Result<(), TextFault>
    // At `Ok` the line spells the step that was read.
    ensures found { OnOk result (SpellsStep line.now buffer.new) }
    // The step that a line spells is read, unless memory is refused.
    ensures only { (step : Step) → SpellsStep line.now step → GivesStep buffer.new result (Ok step) }
    // The step, or the first fault.
    ensures exact { GivesStep buffer.new result (step_in line.now) }
{
    read_line_within(buffer, WRITTEN, line)
}

/// Reads a line without its LF into a new step, with variables up to 2,000,000. The faults are those of [`read_line_within`].
pub(crate) fn read_step(alloc: Global, line: &[u8]) -> Result<Step, TextFault>
    ensures found { IfOk result (λ step. SpellsStep line.now step) }
    ensures exact { Gives result (step_in line.now) }
{
    let mut buffer = StepBuffer::new(alloc);
    read_line(&mut buffer, line)?;
    Ok(buffer.into_step())
}
