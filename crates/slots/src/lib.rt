// The passes of the audit over the NFL and the leaf map: each slot of an owned TreeLing once.
// Functions that write marks answer a bool: a yes or no without a value, and callers join them by `&&`.
#![tactic(auto)]

pub mod entries;
pub mod leaves;
pub mod marks;
