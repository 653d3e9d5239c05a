//! Conversion between the two forms of an LRAT proof: lines of text, and the binary form that solvers write. The first byte tells the form.
//!
//! [`TextForm`] converts bytes in either form to text, so that a reader of texts reads both. Step n becomes line n. Bytes that spell no
//! step become a line that has the same fault. [`BinaryForm`] converts lines to binary steps.
#![tactic(auto)]

mod binary_form;
mod codes;
mod first_byte;
mod laws;
mod limit;
mod limits;
mod line_writer;
mod step_encoder;
mod text_form;

pub use binary_form::BinaryForm;
pub use laws::{binary_form_keeps_the_limit, both_forms_spell_the_same};
pub use text_form::TextForm;
