//! The buffer for a line that offers a lemma, which is used again for the next line.

ghost use Rattle.std.specs.Prelude.{◌≡◌, ◌≢◌, ℕ, ◌≤◌, ◌^◌, ◌++◌, List, [], OnOk, MatchBool, MatchOption, codes, decimal};
ghost use Rattle.lrat_text.specs.Grammar.{SpellsStepWithin};
ghost use Rattle.lrat_text.specs.Steps.{step_of};
ghost use Rattle.lrat_text.specs.declared.step.Step.{Step};
ghost use Rattle.shared_lines.specs.inner.Steps.{IsBare};
ghost use Rattle.shared_lines.specs.Lines.{Gives, Offered, Offers, offer_of};

use crate::bytes::{before_suffix, cut_word};
use crate::fields::LAST_TIME;
use crate::line::Offer;
use crate::number::number_of;
use lrat_text::{StepBuffer, StepRef, TextFault, read_line_within};
use std::alloc::{AllocError, Global};
use std::marker::Model;

/// Holds the offer that was read last. Reading allocates nothing once the vectors are large enough.
pub struct OfferBuffer {
    time: u64,
    step: StepBuffer,
    /// The line of LRAT text that stands for the offer.
    addition: Vec<u8>,
}

impl Drop for OfferBuffer {
    fn drop(self) {
        let OfferBuffer {
            time: _,
            step: _,
            addition: _,
        } = self;
    }
}

impl Model for OfferBuffer {
    ghost use Rattle.shared_lines.specs.Lines.{Offered};
    ghost use Rattle.shared_lines.specs.Buffers.{offer_held};

    ghost Value = { Offered };

    ghost view = { λ b. offer_held b.time b.step };
}

/// Splits the line of an offer: answers its time, and the text after that and a space, which ends with ` 0`. `None` if the line has no such
/// parts.
fn cut_offer(line: &[u8]) -> Option<(u64, &[u8])>
    ensures { MatchOption result
        ((time : ℕ) (rest : List ℕ) → time ≤ 2 ^ 40 → line.now ≢ decimal time ++ codes " " ++ rest ++ codes " 0")
        (λ p. (p.0 ≤ 2 ^ 40) × (rest : List ℕ) × (p.1.now ≡ rest ++ codes " 0") × (line.now ≡ decimal p.0 ++ codes " " ++ rest ++ codes " 0")) }
{
    let Some((word, rest)) = cut_word(line) else {
        return None;
    };
    let Some(time) = number_of(word) else {
        return None;
    };
    if time > LAST_TIME {
        return None;
    }
    match before_suffix(rest, b" 0") {
        Some(_) => Some((time, rest)),
        None => None,
    }
}

/// Overwrites `line` with the line of LRAT text that stands for the text of an offer after its time: a second list, which is empty, follows.
fn spell(line: &mut Vec<u8>, rest: &[u8]) -> Result<(), AllocError>
    ensures { OnOk result (line.new.items ≡ rest.now ++ codes " 0") }
{
    line.clear();
    line.extend_from_slice(rest)?;
    line.extend_from_slice(b" 0")?;
    Ok(())
}

/// Tells whether a step is an addition without hints and groups.
fn is_bare(step: StepRef<'_>) -> bool
    ensures { MatchBool result (IsBare (step_of step.entry)) (¬ (IsBare (step_of step.entry))) }
{
    match step {
        StepRef::Add { hints, groups, .. } => hints.is_empty() && groups.is_empty(),
        StepRef::Delete { .. } => false,
    }
}

/// Reads an addition without hints and groups into `step`.
fn read_addition(step: &mut StepBuffer, most: u32, line: &[u8]) -> Result<(), TextFault>
    requires { most ≤ 199999999 }
    ensures found { OnOk result (SpellsStepWithin most line.now step.new × IsBare step.new) }
    ensures only { (x : Step) → IsBare x → SpellsStepWithin most line.now x → Gives x step.new result }
{
    read_line_within(step, most, line)?;
    if is_bare(step.as_ref()) {
        Ok(())
    } else {
        Err(TextFault::BadToken)
    }
}

impl OfferBuffer {
    /// A buffer that holds an offer of the empty clause under the number 0, which no line spells.
    pub fn new(alloc: Global) -> OfferBuffer
        ensures { (result.time ≡ 0) × (result.number ≡ 0) × (result.clause ≡ []) }
    {
        OfferBuffer {
            time: 0,
            step: StepBuffer::new(alloc),
            addition: Vec::new(alloc),
        }
    }

    /// Reads a line without its LF, with variables up to `most`. After a fault the buffer holds some offer, which means nothing.
    ///
    /// `NoMemory` comes only if memory is refused; any other fault is one of a line that spells no offer.
    pub fn read(&mut self, most: u32, line: &[u8]) -> Result<(), TextFault>
        requires { most ≤ 199999999 }
        ensures found { OnOk result (Offers most line.now self.new) }
        // the offer that the text spells is read, unless memory is refused
        ensures only { (x : Offered) → Offers most line.now x → Gives x self.new result }
    {
        let Some((time, rest)) = cut_offer(line) else {
            return Err(TextFault::BadToken);
        };
        spell(&mut self.addition, rest)?;
        read_addition(&mut self.step, most, &self.addition)?;
        self.time = time;
        Ok(())
    }

    /// Lends the offer.
    pub fn as_ref(&self) -> Offer<'_>
        ensures { offer_of result ≡ self.now }
    {
        match self.step.as_ref() {
            StepRef::Add { id, lits, .. } => Offer {
                time: self.time,
                number: id,
                literals: lits,
            },
            StepRef::Delete { .. } => Offer {
                time: self.time,
                number: 0,
                literals: &[],
            },
        }
    }
}
