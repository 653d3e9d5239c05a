//! Worked examples of one layer each.
#![tactic(auto)]

#[cfg(test)]
mod answers_texts;
#[cfg(test)]
mod cell_worker_turns;
#[cfg(test)]
mod clause_arena_calls;
#[cfg(test)]
mod cluster_closed;
#[cfg(test)]
mod cluster_extended;
#[cfg(test)]
mod cluster_open;
#[cfg(test)]
mod conflict_analysis_lemmas;
#[cfg(test)]
mod coordinator_core_defined;
#[cfg(test)]
mod coordinator_core_frames;
#[cfg(test)]
mod cube_solve_profile;
#[cfg(test)]
mod cube_solve_propagators;
#[cfg(test)]
mod cube_solve_searches;
#[cfg(test)]
mod cube_solve_sessions;
#[cfg(test)]
mod cube_split_definitions;
#[cfg(test)]
mod decide_heap_order;
#[cfg(test)]
mod dimacs_formulas;
#[cfg(test)]
mod frames_messages;
#[cfg(test)]
mod hmac_vectors;
#[cfg(test)]
mod icnf_compared;
#[cfg(test)]
mod icnf_trees;
#[cfg(test)]
mod inputs;
#[cfg(test)]
mod keyed_links_meetings;
#[cfg(test)]
mod links_carriers;
#[cfg(test)]
mod lrat_check_fragments;
#[cfg(test)]
mod lrat_check_logs;
#[cfg(test)]
mod lrat_text_lines;
#[cfg(test)]
mod lrat_text_steps;
#[cfg(test)]
mod proof_trim_fragments;
#[cfg(test)]
mod runs_splits;
#[cfg(test)]
mod sealed_links_wire;
#[cfg(test)]
mod shared_lines_read;
#[cfg(test)]
mod told;
#[cfg(test)]
mod trimming_proofs;
#[cfg(test)]
mod watches_propagators;
#[cfg(test)]
mod watches_trail;
#[cfg(test)]
mod weaving_cells;
#[cfg(test)]
mod worker_core_frames;
