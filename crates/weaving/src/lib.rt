//! Weaves the logs of searches that share lemmas to one ordinary log.
//!
//! How the log is found is believed by nobody: each line is handed out only if the checker of logs takes it, and a log is said to close a
//! cube only if a lemma of it does. So the first reading owes that it is safe and returns; what it finds, and how fast, is tested.
//!
//! 1. The logs are read side by side, always one whose clock is lowest (`clock_heap`, `survey`). Each lemma gets the next number, and an
//!    import is another name of its lemma (`log_record`). Of a lemma, a digest of its literals and the lemmas among its hints are kept
//!    (`lemma_table`). An import that is not supported fails, and so does each lemma that rests on it.
//! 2. Once all cubes are closed (`open_cubes`), or the logs end, going backwards tells which lemmas the closing ones need, and who needs
//!    each of them last (`needs`).
//! 3. The logs are read again in the same order. The needed lemmas are written, and each that closes no cube is deleted behind its last
//!    use (`weaver`).
#![tactic(auto)]

mod cell;
mod cell_record;
mod checked_text;
mod clock_heap;
mod fault;
mod lemma_table;
mod log_lines;
mod log_record;
mod needs;
mod numbering;
mod open_cubes;
mod second_reading;
mod survey;
mod weaver;

pub use cell::{CellLogs, LogSource};
pub use fault::WeaveFault;
pub use survey::{LogOutcome, Plan, Survey, survey_logs};
pub use weaver::Weaver;
