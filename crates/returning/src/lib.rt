// A domain gives back its TreeLings without a page.
#![tactic(auto)]

pub mod trim;
