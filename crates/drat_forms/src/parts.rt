//! What is known after some bytes of a proof.

ghost use Rattle.std.specs.Prelude.{◌≡◌, ◌≢◌, ◌≤◌, ◌++◌, [], ◌∷◌, Ok, Err, None, MatchResult};
ghost use Rattle.drat_forms.specs.Parts.{reading_of};
ghost use Rattle.drat_forms.specs.Reading.{start, reads_byte, reads, takes_byte, takes, tells, ends, ends_at, ends_form, ends_prefix, first_place, Reading};
ghost use Rattle.drat_forms.specs.Form.{form_of};
ghost use Rattle.drat_forms.specs.declared.fault.DratFault.TheVariants.{NoMemory};

use crate::fault::DratFault;
use crate::form::{Form, form_of};
use crate::limit::Limit;
use crate::moves::take_byte;
use crate::place::{Begun, Place};
use std::alloc::Global;

/// What is known after some bytes of a proof. Of the bytes it has those at the beginning, until they tell the form.
pub(crate) struct Parts {
    /// The greatest variable that the proof may have.
    pub(crate) limit: Limit,
    /// The bytes so far, as long as they do not tell the form.
    pub(crate) prefix: Vec<u8>,
    /// The form, once it is known.
    pub(crate) form: Option<Form>,
    /// What is read of the step that is begun.
    pub(crate) begun: Begun,
    /// The place of the next byte.
    pub(crate) place: Place,
    /// The words that were not taken yet.
    pub(crate) words: Vec<u32>,
}

impl Drop for Parts {
    fn drop(self) {
        let Parts {
            limit: _,
            prefix: _,
            form: _,
            begun: _,
            place: _,
            words: _,
        } = self;
    }
}

/// The place of a form's first byte.
fn first_place(form: Form) -> Place
    ensures { result ≡ first_place form }
{
    match form {
        Form::Text => Place::Gap,
        Form::Binary => Place::Step,
    }
}

impl Parts {
    /// What is known before the first byte of a proof with variables up to `most`. It takes no memory.
    pub(crate) fn new(alloc: Global, most: u32) -> Parts
        requires { most ≤ 199999999 }
        ensures { reading_of result ≡ start most }
    {
        Parts {
            limit: Limit { most },
            prefix: Vec::new(alloc),
            form: None,
            begun: Begun::Nothing,
            place: Place::Gap,
            words: Vec::new(alloc),
        }
    }

    /// Reads a byte of a proof whose form is known.
    #[inline(always)]
    fn read_byte(&mut self, byte: u8) -> Result<(), DratFault>
        ensures { MatchResult result (λ _. reads_byte (reading_of self.old) byte ≡ Ok (reading_of self.new)) (λ fault. fault ≢ NoMemory → reads_byte (reading_of self.old) byte ≡ Err fault) }
    {
        let next = take_byte(self.limit.most, self.begun, self.place, byte)?;
        if let Some(word) = next.word {
            self.words.push(word)?;
        }
        self.begun = next.begun;
        self.place = next.place;
        Ok(())
    }

    /// Reads bytes of a proof whose form is known.
    fn read(&mut self, bytes: &[u8]) -> Result<(), DratFault>
        ensures { MatchResult result (λ _. reads (reading_of self.old) bytes.now ≡ Ok (reading_of self.new)) (λ fault. fault ≢ NoMemory → reads (reading_of self.old) bytes.now ≡ Err fault) }
    {
        let mut rest = bytes;
        while let Some((byte, later)) = rest.split_first() {
            self.read_byte(*byte)?;
            rest = later;
        }
        Ok(())
    }

    /// Begins to read a proof of this form, at its first byte.
    fn begin(&mut self, form: Form)
        ensures { reading_of self.new ≡ record (reading_of self.old) { prefix = []; form = Some form; place = first_place form } }
    {
        self.prefix.clear();
        self.form = Some(form);
        self.place = first_place(form);
    }

    /// Takes a byte more of those that are to tell the form.
    fn tell(&mut self, alloc: Global, byte: u8) -> Result<(), DratFault>
        ensures { MatchResult result
            (λ _. takes_byte None (reading_of self.old) byte ≡ Ok (reading_of self.new))
            (λ fault. fault ≢ NoMemory → takes_byte None (reading_of self.old) byte ≡ Err fault) }
    {
        self.prefix.push(byte)?;
        match form_of(&self.prefix) {
            None => Ok(()),
            Some(form) => {
                let prefix = std::mem::replace(&mut self.prefix, Vec::new(alloc));
                self.begin(form);
                self.read(&prefix)
            }
        }
    }

    /// Takes the next byte of a proof.
    #[inline(always)]
    fn take_byte(&mut self, alloc: Global, byte: u8) -> Result<(), DratFault>
        ensures { MatchResult result
            (λ _. takes_byte self.old.form (reading_of self.old) byte ≡ Ok (reading_of self.new))
            (λ fault. fault ≢ NoMemory → takes_byte self.old.form (reading_of self.old) byte ≡ Err fault) }
    {
        match self.form {
            Some(_) => self.read_byte(byte),
            None => self.tell(alloc, byte),
        }
    }

    /// Takes the next bytes of a proof.
    pub(crate) fn take(&mut self, alloc: Global, bytes: &[u8]) -> Result<(), DratFault>
        ensures { MatchResult result
            (λ _. takes (reading_of self.old) bytes.now ≡ Ok (reading_of self.new))
            (λ fault. fault ≢ NoMemory → takes (reading_of self.old) bytes.now ≡ Err fault) }
    {
        let mut rest = bytes;
        while let Some((byte, later)) = rest.split_first() {
            self.take_byte(alloc, *byte)?;
            rest = later;
        }
        Ok(())
    }

    /// Ends the proof at this place.
    fn end_at(&self) -> Result<(), DratFault>
        ensures { MatchResult result
            (λ _. ends_at (reading_of self.now) self.now.begun self.now.place ≡ Ok (reading_of self.now))
            (λ fault. ends_at (reading_of self.now) self.now.begun self.now.place ≡ Err fault) }
    {
        match (self.begun, self.place) {
            (_, Place::Refuted) => Ok(()),
            (Begun::Nothing, Place::Gap) => Ok(()),
            (Begun::Nothing, Place::Step) => Ok(()),
            _ => Err(DratFault::StepNotEnded),
        }
    }

    /// Ends a proof of this form.
    fn end_form(&mut self, form: Form) -> Result<(), DratFault>
        ensures { MatchResult result
            (λ _. ends_form form (reading_of self.old) ≡ Ok (reading_of self.new))
            (λ fault. fault ≢ NoMemory → ends_form form (reading_of self.old) ≡ Err fault) }
    {
        match form {
            Form::Text => {
                self.read_byte(b'\n')?;
                self.end_at()
            }
            Form::Binary => self.end_at(),
        }
    }

    /// Ends the proof.
    pub(crate) fn end(&mut self) -> Result<(), DratFault>
        ensures { MatchResult result
            (λ _. ends self.old.form (reading_of self.old) ≡ Ok (reading_of self.new))
            (λ fault. fault ≢ NoMemory → ends self.old.form (reading_of self.old) ≡ Err fault) }
    {
        match self.form {
            Some(form) => self.end_form(form),
            None => {
                if self.prefix.is_empty() {
                    Err(DratFault::Empty)
                } else {
                    Err(DratFault::StepNotEnded)
                }
            }
        }
    }
}
