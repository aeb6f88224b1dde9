// The layout of a state: sizes, the address of every word, words in a row.
#![tactic(auto)]

pub mod addresses;
pub mod words;

// T TreeLings, D domains, P page frames. They go beside the state's words as a parameter of their own: a struct of both would be named in every clause
// where now the words are, and each function that writes would promise that it still lends the same. Bounds by them, as d < D, relate two values, and are clauses.
#[derive(Clone, Copy)]
pub struct Sizes {
    pub treelings: u64,
    pub domains: u64,
    pub frames: u64,
}
