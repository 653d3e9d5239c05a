//! Laws of joined logs, as contracts of calls that do nothing.

ghost use Rattle.std.specs.Prelude.{◌≡◌, ◌≤◌, ℕ, Bool, true, false, List, [], ◌∷◌, ◌+◌, ◌++◌, length, map, codes, Contains};
ghost use Rattle.dimacs.specs.logic.ClauseMap.{map_of};
ghost use Rattle.dimacs.specs.logic.Cnf.{Cnf};
ghost use Rattle.icnf.specs.Leaves.{Cube, Leaves};
ghost use Rattle.lrat_text.specs.Grammar.{LineSpellsWithin};
ghost use Rattle.lrat_text.specs.Log.{IsLog, log_top};
ghost use Rattle.lrat_text.specs.declared.step.Step.{Step};
ghost use Rattle.proof_join.specs.RenumberedProof.{RupRefutation, RefutesByRup};
ghost use Rattle.lrat_text.specs.Runs.{text_of};
ghost use Rattle.proof_join.specs.RenumberedSteps.{behind, renumbered};
ghost use Rattle.log_join.specs.ClosedLeaves.{Leaf, is_closed, open_from};
ghost use Rattle.log_join.specs.Examples.{two_leaves, right_log, right_lemmas, refused_log, refused_lemmas, left_log, left_lemmas, ended_tree};
ghost use Rattle.log_join.specs.JoinedLogs.{AreLogs, AreWritten, ClosesLeaf, IsJoinOf, IsJoinTextOf, Handed, IsClosedBy, deleted, deletions, ends, forks, joined_so_far, left_by};
ghost use Rattle.log_join.specs.Written.{BetweenLogs, AtLogEnd, WithinLog, leaves_of};
ghost use Rattle.log_join.specs.declared.log_joiner.LogJoiner.{LogJoiner};

/// The join of logs that close every leaf of a tree refutes the formula, by reverse unit propagation (RUP) alone.
pub fn joined_logs_refute()
    ensures steps { (F : Cnf) (cubes : List Cube) (logs : List Handed) (steps : List Step)
        → AreLogs F logs → IsJoinOf F cubes logs steps → RupRefutation (map_of F) (length F.clauses) steps }
    // The text of the join refutes the formula too.
    ensures text { (F : Cnf) (cubes : List Cube) (logs : List Handed) (text : List ℕ)
        → F.vars ≤ 199999999 → AreLogs F logs → AreWritten F logs → IsJoinTextOf F cubes logs text → RefutesByRup F text }
{}

/// Logs over a formula have a join exactly if each leaf of the tree is closed by one of the accepted logs, and the join is unique.
pub fn closed_leaves_are_joined()
    ensures some { (F : Cnf) (cubes : List Cube) (logs : List Handed)
        → Leaves [] cubes → AreLogs F logs → ((q : Cube) → Contains cubes q → IsClosedBy F logs q)
        → (steps : List Step) × IsJoinOf F cubes logs steps }
    ensures only { (F : Cnf) (cubes : List Cube) (logs : List Handed) (steps : List Step)
        → IsJoinOf F cubes logs steps → (q : Cube) → Contains cubes q → IsClosedBy F logs q }
    ensures one { (F : Cnf) (cubes : List Cube) (logs : List Handed) (s t : List Step)
        → IsJoinOf F cubes logs s → IsJoinOf F cubes logs t → s ≡ t }
{}

/// After logs were joined, a leaf is closed exactly if one of the accepted logs closes it.
pub fn leaves_are_closed_by_logs()
    ensures only { (F : Cnf) (cubes : List Cube) (logs : List Handed) (k : Leaf)
        → Contains (joined_so_far F cubes logs).leaves k → is_closed k ≡ true → IsClosedBy F logs k.cube }
    ensures all { (F : Cnf) (cubes : List Cube) (logs : List Handed) (k : Leaf)
        → AreLogs F logs → Contains (joined_so_far F cubes logs).leaves k → IsClosedBy F logs k.cube → is_closed k ≡ true }
{}

/// The states of a joiner, for its callers. After the last line of a log its end has begun, with no lemma taken. Between two logs the
/// leaves in memory are those that the definition says, and their cubes are those of the tree.
pub fn joiner_states()
    ensures begins { (F : Cnf) (cubes : List Cube) (logs : List Handed) (log : List Step) (accepted : Bool) (g : LogJoiner) (written : List ℕ)
        → WithinLog F cubes logs log g written → AtLogEnd F cubes logs (record { steps = log; accepted = accepted }) (length F.clauses + 1) g written }
    ensures leaves { (F : Cnf) (cubes : List Cube) (logs : List Handed) (g : LogJoiner) (written : List ℕ)
        → BetweenLogs F cubes logs g written → leaves_of g ≡ (joined_so_far F cubes logs).leaves }
    ensures cubes { (F : Cnf) (cubes : List Cube) (logs : List Handed) → map (λ k. k.cube) (joined_so_far F cubes logs).leaves ≡ cubes }
{}

/// What was written when a log has ended is itself a log over the formula, which closes each leaf that is closed.
pub fn joined_lines_close()
    ensures { (F : Cnf) (cubes : List Cube) (logs : List Handed) (g : LogJoiner) (written : List ℕ) → BetweenLogs F cubes logs g written
        → (k : Leaf) → Contains (leaves_of g) k → is_closed k ≡ true → (steps : List Step) × LineSpellsWithin (log_top F) written steps × IsLog F steps × ClosesLeaf F k.cube steps }
{}

/// The join of three logs over a formula of four clauses, the second of which is refused.
pub fn worked_log_join()
    ensures right { deleted true two_leaves right_lemmas ≡ 5 ∷ [] }
    ensures open { open_from 0 (left_by true two_leaves right_lemmas) ≡ 0 ∷ [] }
    ensures refused { deleted false (left_by true two_leaves right_lemmas) refused_lemmas ≡ 7 ∷ [] }
    ensures left { deleted true (left_by true two_leaves right_lemmas) left_lemmas ≡ [] }
    ensures closed { left_by true (left_by true two_leaves right_lemmas) left_lemmas ≡ ends [] ended_tree }
    ensures text { text_of 4 ((map (renumbered (behind 4 4)) right_log ++ deletions (5 ∷ []))
        ++ (map (renumbered (behind 4 6)) refused_log ++ deletions (7 ∷ []))
        ++ (map (renumbered (behind 4 7)) left_log ++ deletions [])
        ++ (forks [] 8 ended_tree).steps)
        ≡ codes "5 2 0 1 2 0\n6 1 0 5 3 0\n6 d 5 0\n7 2 0 1 2 0\n7 d 7 0\n8 -1 0 2 4 0\n9 0 8 6 0\n" }
{}
