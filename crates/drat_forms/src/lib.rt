//! DRAT proofs, as text and in binary form: bytes, and the steps that they spell.
//!
//! [`Reader`] takes the bytes of a proof in any pieces, tells the two forms apart by their first bytes, and gives the steps as words:
//! a literal is a word from 2 on, an addition ends with the word 0, a deletion with the word 1.
#![tactic(auto)]

mod fault;
mod form;
mod laws;
mod limit;
mod moves;
mod parts;
mod place;
mod reader;

pub use fault::DratFault;
pub use form::Form;
pub use laws::{drat_proofs_spell_one_list, reading_is_spelling};
pub use place::{Begun, Place};
pub use reader::Reader;
