//! Elaborates a DRAT proof that comes in pieces.

ghost use Rattle.std.specs.Prelude.{◌≡◌, IfOk};
ghost use Rattle.lrat_text.specs.Proof.{Accepts};

use crate::backward::{Backward, Made};
use crate::fault::{ElaborationFault, Kind};
use crate::lrat_writer::write;
use crate::observer::{ElaborationObserver, Unobserved};
use crate::propagator::Propagator;
use crate::replay::Replay;
use crate::step_loader::{LoadFault, Loaded, StepLoader};
use dimacs::Formula;
use drat_forms::{DratFault, Form, Reader};
use lrat_text::proof_top;
use lrat_trim::is_accepted;
use packed_text::PackedText;
use std::alloc::{AllocError, Global};
use std::marker::Model;

/// What an elaboration counted.
#[derive(Clone, Copy, Debug)]
pub struct Statistics {
    /// The form of the DRAT proof.
    pub form: Form,
    /// The number of its steps up to the first false clause.
    pub steps: u64,
    /// The number of lemmas of the LRAT proof.
    pub lemmas: u64,
    /// The number of those that are RAT.
    pub rats: u64,
    /// The number of deletions of clauses that were not there, which were passed over.
    pub unknown: u64,
    /// The number of deletions that were not done, since their clause has one true literal at the root, and only false ones beside it.
    pub kept: u64,
}

/// An LRAT proof that was made of a DRAT proof.
#[derive(Drop)]
pub struct Elaborated {
    /// The text of the LRAT proof, which is accepted.
    pub text: PackedText,
    pub statistics: Statistics,
}

/// What is known of the steps that were complete before a fault.
fn fault_at(kind: Kind, steps: usize) -> ElaborationFault {
    ElaborationFault {
        kind,
        step: (steps as u64).saturating_add(1),
    }
}

/// The fault of bytes behind this many steps.
fn bytes_fault(fault: DratFault, steps: usize) -> ElaborationFault {
    match fault {
        DratFault::NoMemory => ElaborationFault::from(AllocError),
        _ => fault_at(Kind::Bytes(fault), steps),
    }
}

/// The fault of a step that was not loaded.
fn load_fault(fault: LoadFault, steps: usize) -> ElaborationFault {
    match fault {
        LoadFault::NoMemory => ElaborationFault::from(AllocError),
        LoadFault::TooLong => fault_at(Kind::TooLong, steps),
    }
}

/// Takes a DRAT proof in pieces, and makes an LRAT proof of it.
pub struct Elaborator {
    alloc: Global,
    formula: Formula,
    reader: Reader,
    loader: StepLoader,
}

impl Drop for Elaborator {
    fn drop(self) {
        let Elaborator {
            alloc: _,
            formula: _,
            reader: _,
            loader: _,
        } = self;
    }
}

impl Model for Elaborator {
    ghost use Rattle.dimacs.specs.logic.Cnf.{Cnf};

    ghost Value = { Cnf };

    ghost view = { λ e. e.formula };
}

/// An LRAT proof that is not checked, and what was counted.
#[derive(Drop)]
struct Draft {
    text: PackedText,
    statistics: Statistics,
}

/// Goes backwards over a proof that was replayed to a conflict.
fn go_back<O: ElaborationObserver>(
    alloc: Global,
    propagator: Propagator,
    loaded: &mut Loaded,
    replay: &mut Replay,
    observer: &mut O,
) -> Result<Made, ElaborationFault> {
    let mut backward = Backward::new(alloc, propagator, loaded)?;
    match backward.run(&loaded.steps, replay, observer)? {
        None => Ok(backward.into_made()),
        Some(step) => Err(fault_at(Kind::NotImplied, step)),
    }
}

/// Makes an LRAT proof of a proof that was loaded.
fn make_draft<O: ElaborationObserver>(
    alloc: Global,
    form: Form,
    mut loaded: Loaded,
    observer: &mut O,
) -> Result<Draft, ElaborationFault> {
    let arena = std::mem::replace(&mut loaded.arena, crate::arena::Arena::new(alloc)?);
    let mut propagator = Propagator::new(alloc, arena, loaded.rows)?;
    let mut replay = Replay::of(
        alloc,
        &mut propagator,
        loaded.formula,
        &mut loaded.steps,
        observer,
    )?;
    if replay.conflict == 0 {
        return Err(fault_at(Kind::NotRefuted, loaded.steps.len()));
    }
    let made = go_back(alloc, propagator, &mut loaded, &mut replay, observer)?;
    let statistics = Statistics {
        form,
        steps: replay.steps as u64,
        lemmas: made.trace.records.len() as u64,
        rats: made.rats,
        unknown: loaded.unknown,
        kept: replay.kept,
    };
    let text = write(alloc, &made, loaded.rows)?;
    Ok(Draft { text, statistics })
}

impl Elaborator {
    /// An elaborator of a proof of the formula that has taken no byte.
    pub fn new(alloc: Global, formula: Formula) -> Result<Elaborator, ElaborationFault>
        ensures { IfOk result (λ e. e ≡ formula) }
    {
        let loader = match StepLoader::new(alloc, &formula) {
            Ok(loader) => loader,
            Err(fault) => return Err(load_fault(fault, 0)),
        };
        Ok(Elaborator {
            alloc,
            reader: Reader::new(alloc, proof_top(&formula)),
            formula,
            loader,
        })
    }

    /// Loads the words that were read.
    fn load(&mut self) -> Result<(), ElaborationFault>
        ensures { self.new ≡ self.old }
    {
        match self.loader.take(self.reader.words()) {
            Ok(()) => {
                self.reader.clear();
                Ok(())
            }
            Err(fault) => Err(load_fault(fault, self.loader.steps())),
        }
    }

    /// Takes the next piece, or returns the first fault of the steps that are complete by now. After a fault the elaborator is of no use.
    pub fn feed(&mut self, piece: &[u8]) -> Result<(), ElaborationFault>
        ensures { self.new ≡ self.old }
    {
        let read = self.reader.feed(piece);
        self.load()?;
        match read {
            Ok(()) => Ok(()),
            Err(fault) => Err(bytes_fault(fault, self.loader.steps())),
        }
    }

    /// Ends the proof.
    fn end(&mut self) -> Result<Form, ElaborationFault>
        ensures { self.new ≡ self.old }
    {
        if let Err(fault) = self.reader.finish() {
            return Err(bytes_fault(fault, self.loader.steps()));
        }
        self.load()?;
        match self.reader.form() {
            Some(form) => Ok(form),
            None => Ok(Form::Text),
        }
    }

    /// Takes the elaborator apart: the formula, and what was loaded.
    fn into_parts(self) -> (Formula, Loaded)
        ensures { result.0 ≡ self }
    {
        let Elaborator {
            alloc: _,
            formula,
            reader: _,
            loader,
        } = self;
        (formula, loader.into_loaded())
    }

    /// The number of steps that are complete by now.
    pub fn steps(&self) -> u64 {
        self.loader.steps() as u64
    }

    /// Makes the LRAT proof, if no further byte comes. `Err` is the first fault found: of the bytes, or else of the last needed lemma that is
    /// not implied.
    pub fn finish(self) -> Result<Elaborated, ElaborationFault>
        ensures { IfOk result (λ e. Accepts self e.text) }
    {
        self.finish_observed(&mut Unobserved)
    }

    /// Makes the LRAT proof as [`Elaborator::finish`] does, and shows the observer how far it has come.
    pub fn finish_observed<O: ElaborationObserver>(
        self,
        observer: &mut O,
    ) -> Result<Elaborated, ElaborationFault>
        ensures { IfOk result (λ e. Accepts self e.text) }
    {
        let alloc = self.alloc;
        let mut elaborator = self;
        let form = elaborator.end()?;
        let (formula, loaded) = elaborator.into_parts();
        let Draft { text, statistics } = make_draft(alloc, form, loaded, observer)?;
        if is_accepted(alloc, formula, &text)? {
            return Ok(Elaborated { text, statistics });
        }
        Err(ElaborationFault {
            kind: Kind::Refused,
            step: 0,
        })
    }
}

/// Makes an LRAT proof of a DRAT proof of the formula, or returns its first fault, as [`Elaborator::finish`] does.
pub fn elaborate(
    alloc: Global,
    formula: Formula,
    proof: &[u8],
) -> Result<Elaborated, ElaborationFault>
    ensures { IfOk result (λ e. Accepts formula e.text) }
{
    let mut elaborator = Elaborator::new(alloc, formula)?;
    elaborator.feed(proof)?;
    elaborator.finish()
}
