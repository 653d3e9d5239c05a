//! The commands, one module each.

pub(crate) mod cubes;
pub(crate) mod drill;
pub(crate) mod serve;
pub(crate) mod service;
pub(crate) mod solve;
pub(crate) mod work;
