// TreeLings go back to the pool: cleared, and the rest linked anew.
#![tactic(auto)]

pub mod clear;
pub mod links;
