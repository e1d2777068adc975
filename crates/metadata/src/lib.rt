// The metadata of a heap: what its fields are, and what is read back after one is written. It has no code.

#![tactic(auto)]
