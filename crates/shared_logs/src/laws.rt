//! The laws, as contracts of functions that do nothing.

ghost use Rattle.shared_logs.specs.SharedLogs.{ImportsFollow, SharedLemmasFollow};
ghost use Rattle.shared_logs.specs.SharedLeaves.{SharedLeavesRefute};
ghost use Rattle.shared_logs.specs.WovenLogs.{CellsCanBeWoven, WholeCellsClose, WovenLogsAreLogs, WovenLogsClose};

/// Logs of several searches of one formula: if each import names a lemma that one of these logs wrote at a lower clock than the import
/// stands at, every lemma of every log follows from the formula, and so does every import.
pub fn shared_lemmas_follow()
    ensures lemmas { SharedLemmasFollow }
    ensures imports { ImportsFollow }
{}

/// If lemmas of such logs close every leaf of a splitting tree, no assignment satisfies the formula.
pub fn shared_leaves_refute()
    ensures { SharedLeavesRefute }
{}

/// Logs of several searches of one formula, woven to one: their lines are taken by the clock, each lemma gets the next number, an import is
/// another name of the lemma that it names, and a clause may be deleted once no later line uses it. That is a log over the formula, and up to
/// a lemma that closes a leaf it is a log that closes that leaf.
pub fn a_woven_log_closes()
    ensures log { WovenLogsAreLogs }
    ensures part { WovenLogsClose }
    // if every line of every log is taken, it is enough that some log closes the leaf
    ensures whole { WholeCellsClose }
    // and there is such an order of all lines, whatever the logs are, if no two have one name
    ensures some { CellsCanBeWoven }
{}
