// The passes of the audit over records: ranges, and the links of TreeLings.
#![tactic(auto)]

pub mod links;
pub mod ranges;
