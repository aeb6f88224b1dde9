// Document 01's ten lines, worked histories, and wrong controllers that the statements of histories exclude: all by computing. Theorems, no code.
#![tactic(auto)]
