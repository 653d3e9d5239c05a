//! Why a link cannot be used any more, and what follows from that.

ghost use Rattle.std.specs.Prelude.{◌≡◌, OnErr, OnOk, IfErr};
ghost use Rattle.runs.specs.declared.broken.Broken.TheVariants.{Closed, NoMemory};
ghost use Rattle.lrat_check.specs.declared.verdict.Reaction.TheVariants as reactions;

use lrat_check::Reaction;
use std::alloc::AllocError;

/// Why a turn failed.
#[derive(Clone, Copy, Debug, PartialEq, Eq)]
pub(crate) enum Broken {
    /// The link refused bytes or ended, or brought bytes that are no frames.
    Closed,
    /// Memory was refused.
    NoMemory,
}

impl From<AllocError> for Broken {
    ghost from_gives = { λ _ e. e ≡ NoMemory };

    fn from(_e: AllocError) -> Broken {
        Broken::NoMemory
    }
}

/// Answers `NoMemory` if the reaction of a coordinator or a worker is `NoMemory`; every other reaction is `Ok`.
pub(crate) fn check_memory(reaction: Reaction) -> Result<(), Broken>
    ensures reaction { OnErr result (reaction ≡ reactions.NoMemory) }
    ensures fault { IfErr result (λ b. b ≡ NoMemory) }
{
    if reaction == Reaction::NoMemory {
        return Err(Broken::NoMemory);
    }
    Ok(())
}

/// What a broken link means for its run: want of memory is an error, which ends the run; a closed link is `Ok`, and the run goes on without
/// it.
pub(crate) fn run_outcome(broken: Broken) -> Result<(), AllocError>
    ensures { OnOk result (broken ≡ Closed) }
{
    match broken {
        Broken::Closed => Ok(()),
        Broken::NoMemory => Err(AllocError),
    }
}
