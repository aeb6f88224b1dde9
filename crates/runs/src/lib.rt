// Runs of pages: maps and releases, whole or not at all.
#![tactic(auto)]

pub mod map_runs;
pub mod unmap_runs;
