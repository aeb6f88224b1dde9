// Lines of numbers: request lines read from standard input, words printed to standard output.
#![tactic(auto)]

pub mod decimal;
pub mod input;
pub mod output;
pub mod reading;
