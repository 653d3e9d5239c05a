//! LRAT proofs as text: steps, and the lines that spell them.
//!
//! [`read_line`] and [`next`] read lines, [`put_ref`] writes them, and [`LineBuffer`] splits a text that comes in pieces into lines.
#![tactic(auto)]

mod canonical;
mod cursor;
mod fault;
mod groups;
mod laws;
mod limit;
mod line_splitter;
mod parser;
mod short_number;
mod step;
mod step_buffer;
mod step_reader;
mod token;
mod token_block;
mod verbatim;
mod writer;

pub use canonical::{canonical_id, canonical_id_within};
pub use cursor::{cut_line, next};
pub use fault::TextFault;
pub use groups::Groups;
pub use laws::{
    a_greater_limit_spells_the_same, a_text_spells_one_list, closing_the_empty_cube_is_accepted,
    fresh_logs_are_short, putting_is_spelling, reading_is_spelling, reading_within_is_spelling,
    text_is_lines,
};
pub use limit::{log_top, proof_top};
pub use line_splitter::{LineBuffer, PieceFault, TakesLines, take_lines};
pub use parser::{read_line, read_line_within};
pub use step::{ClauseNumbers, Literals, Step, StepRef};
pub use step_buffer::StepBuffer;
pub use step_reader::{StepReader, read_pieces};
pub use verbatim::{put_with_literal_text, read_without_literals, read_without_literals_within};
pub use writer::{put, put_ref, put_ref_within};
