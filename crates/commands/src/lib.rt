//! Commands over the files that they read and write. Each answers a report: what is printed at its end, and the exit status.
//!
//! The files are a type parameter (`Disk`, `Drafts`), so a contract can name their bytes. A layer above may rest on this: what is promised
//! of a file is promised of all its bytes, and what is printed, and the status, are those of the report.
#![tactic(auto)]

mod atomic_write;
mod check;
mod check_session;
mod closed_leaves;
mod cover;
mod cover_receipts;
mod decide;
mod disk;
mod drafts;
mod elaborate;
mod event_source;
mod feed_loop;
mod file_names;
mod filter;
mod formula_tree;
mod found_proof;
mod identity;
mod join;
mod join_run;
mod leaf;
mod lift;
mod lift_drat;
mod minisat;
mod model;
mod outcome;
mod outputs;
mod part_file;
mod pending_text;
mod piece_reader;
mod receipt;
mod receipt_names;
mod session_lines;
mod session_loop;
mod share;
mod small_file;
mod solver;
mod trim;
mod weave;
mod weave_notes;
mod whole_source;

pub use atomic_write::write_text;
pub use check::check_files;
pub use check_session::check_session_files;
pub use cover::{CoverFiles, cover_files};
pub use decide::{Deciding, decide_files};
pub use disk::Disk;
pub use drafts::{Drafts, Target, Way};
pub use elaborate::{check_drat_files, elaborate_files};
pub use feed_loop::{Fed, Feeds, feed_all, feed_on};
pub use formula_tree::{Begun, begin_files, hushed, refused_input};
pub use identity::identity_line;
pub use join::{JoinFiles, join_files};
pub use join_run::{JoinOptions, stopped};
pub use leaf::{leaf_files, split_by_look_files, split_files};
pub use lift::{LiftFiles, Lifted, lift_files};
pub use lift_drat::lift_drat_files;
pub use minisat::{MinisatFiles, solve_as_minisat};
pub use model::test_files;
pub use outcome::{deliver, print};
pub use outputs::Outputs;
pub use piece_reader::{Pieces, refused};
pub use receipt::{ReceiptFiles, receipt_files};
pub use session_loop::{Asking, answer_session};
pub use share::{LeafSharing, Sharing, share_files, share_leaf_files};
pub use solver::{Solved, SolverDisk, SolverFiles, There, solve_files};
pub use trim::{TrimFiles, trim_files};
pub use weave::{WeaveFiles, weave_files, weave_leaf_files};
pub use whole_source::{read_bytes, read_formula};
