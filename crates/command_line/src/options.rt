//! The options of a run: how a formula is decided.

/// The options of a run: how a formula is decided, and what is printed of it. A field that the words do not give has the default that is
/// named here.
#[derive(Clone, Copy, PartialEq, Eq)]
pub struct Options {
    /// The number of workers, from 1 to 64; by default 2.
    pub workers: u32,
    /// The depth to which the formula is split, from 0 to 16, if no cubes are given; by default 4, and at a port 6, 8 or 10 by the number
    /// of workers.
    pub depth: u32,
    /// The greatest number of lemmas that the search under a leaf learns before the leaf is split, from 1 to 1,000,000,000; by default
    /// 100,000, and at a port 1,000,000.
    pub limit: u64,
    /// The number of the coordinator's session; by default 1.
    pub session: u64,
    /// The number of the worker, from 1 to 64; by default 1.
    pub number: u32,
    /// The incarnation of the worker; by default 1.
    pub incarnation: u64,
    /// The number of variables that are defined, each for two literals that occur together in many clauses, from 0 to 64; by default 0.
    pub defs: u32,
    /// Whether the worker sends before it works, so that the coordinator goes on to others; by default not.
    pub ahead: bool,
    /// The seconds that a task may take if another worker is free, and a run without a link, from 1 to 1,000,000,000; None stands for no
    /// end.
    pub patience: Option<u64>,
    /// Whether the progress of the run is shown on standard error.
    pub progress: bool,
    /// Whether the coordinator takes its workers in turns, round by round.
    pub rounds: bool,
    /// Whether the proof is written in binary form.
    pub binary: bool,
    /// Whether `c` lines are left out.
    pub quiet: bool,
    /// Whether the `v` lines of an assignment are printed.
    pub witness: bool,
}

/// The default options of a run whose workers are of this process.
pub const USUAL: Options = Options {
    workers: 2,
    depth: 4,
    limit: 100_000,
    session: 1,
    number: 1,
    incarnation: 1,
    defs: 0,
    ahead: false,
    patience: None,
    progress: false,
    rounds: false,
    binary: false,
    quiet: false,
    witness: true,
};
