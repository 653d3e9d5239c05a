//! Worked examples of whatever crosses crates: calls of the program's, runs, and proofs that are checked.
#![tactic(auto)]

#[cfg(test)]
mod check;
#[cfg(test)]
mod check_candidates;
#[cfg(test)]
mod check_deletions;
#[cfg(test)]
mod check_pieces;
#[cfg(test)]
mod check_sessions;
#[cfg(test)]
mod command_line_words;
#[cfg(test)]
mod cubes;
#[cfg(test)]
mod decide;
#[cfg(test)]
mod drill;
#[cfg(test)]
mod inputs_in_pieces;
#[cfg(test)]
mod join;
#[cfg(test)]
mod lift;
#[cfg(test)]
mod lift_many_cubes;
#[cfg(test)]
mod proof_join_fragments;
#[cfg(test)]
mod proof_join_renumbering;
#[cfg(test)]
mod run_reports;
#[cfg(test)]
mod solve;
#[cfg(test)]
mod solve_defined;
#[cfg(test)]
mod solve_profile;
#[cfg(test)]
mod solve_split;
#[cfg(test)]
mod solver_words;
