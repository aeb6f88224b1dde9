// One domain's world: its TreeLings by rank, its head block and its NFL entries in rank order (no code).
#![tactic(auto)]
