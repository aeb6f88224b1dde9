// Calls on a domain as a whole: open, close, trim, fill.
#![tactic(auto)]

pub mod closing;
pub mod filling;
pub mod opening;
pub mod trimming;
