//! LRAT proofs in binary form: bytes, and the steps that they spell.
//!
//! [`BinaryReader`] takes the bytes in any pieces and delivers each step to a consumer, which implements [`TakesSteps`]. The steps are
//! those of `lrat_text`, so one consumer serves both forms.
#![tactic(auto)]

mod binary_reader;
mod laws;
mod leb128;
mod limit;
mod partial_step;
mod short_number;
mod step_sink;
mod token;

pub use binary_reader::BinaryReader;
pub use laws::{a_proof_spells_one_list, reading_is_spelling, reading_within_is_spelling};
pub use step_sink::{FeedFault, TakesSteps};
