// Demands 2 and 3: histories of batches, and what is proved of them. Definitions and theorems, no code.
#![tactic(auto)]
