// A sound state: one that the audit passes. Definitions and their laws, no code.
#![tactic(auto)]
