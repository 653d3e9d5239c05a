//! Laws of closed schedules, as the contracts of calls that do nothing.

ghost use Rattle.honest_cluster.specs.ClosedLaws.{NeverRefused, PiecesEndWell, DonesEndWell, PartsEndWell, VerdictsEndWell, ClosedIsJoined, IsStuckRightly, AlwaysRight, NeverDiffer, OneFormula, OneTask, OneAnswer, OneText, VerdictsStay, RestartsDrop, NothingChanges};

use coordinator_core::coordinators_keep_what_they_hold;
use lrat_check::right_verdicts_agree;
use worker_core::workers_keep_what_they_hold;

/// States that at every moment of every closed schedule no reaction is a refusal. A delivery that completes an assignment at the
/// coordinator is answered by `Verdict` or `NoMemory`; one that completes a fragment closes its leaf or is answered by `NoMemory`; one that
/// completes a candidate at a worker is answered by `Verdict` or `NoMemory`. If every leaf is closed, the joined proof is held, or it is
/// too long. The coordinator is stuck only if the joined proof is too long, or if a search met its limit and some leaf that is not closed
/// cannot be split. Each verdict is right, and no two verdicts differ, at one moment or at two.
pub fn honest_work_is_never_refused()
    ensures refused { NeverRefused }
    ensures pieces { PiecesEndWell }
    ensures dones { DonesEndWell }
    ensures parts { PartsEndWell }
    ensures verdicts { VerdictsEndWell }
    ensures joined { ClosedIsJoined }
    ensures stuck { IsStuckRightly }
    ensures right { AlwaysRight }
    ensures agree { NeverDiffer }
{
    coordinators_keep_what_they_hold();
    right_verdicts_agree();
}

/// States that at every moment of every closed schedule all Tasks of one session and job have the same cube and limit; all Dones of one
/// attempt have the same ending, and its Pieces have bytes of one text. Each node keeps the formula, and keeps its verdict until a restart
/// of the node drops it. An event with the reaction `Ignored` or `NoMemory` changes nothing.
pub fn closed_clusters_keep_their_word()
    ensures task { OneTask }
    ensures answer { OneAnswer }
    ensures text { OneText }
    ensures formula { OneFormula }
    ensures stays { VerdictsStay }
    ensures drops { RestartsDrop }
    ensures nothing { NothingChanges }
{
    coordinators_keep_what_they_hold();
    workers_keep_what_they_hold();
}
