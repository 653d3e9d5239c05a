//! The commands, a file each, and the words that several of them share.

pub(crate) mod check;
pub(crate) mod cover;
pub(crate) mod cubes;
pub(crate) mod decide;
pub(crate) mod drill;
pub(crate) mod elaborate;
pub(crate) mod join;
pub(crate) mod leaf;
mod leaf_words;
pub(crate) mod lift;
pub(crate) mod model;
pub(crate) mod receipt;
pub(crate) mod refute;
mod run_words;
pub(crate) mod serve;
pub(crate) mod session;
pub(crate) mod share;
pub(crate) mod solve;
pub(crate) mod trim;
pub(crate) mod weave;
pub(crate) mod words;
pub(crate) mod work;
