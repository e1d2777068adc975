// Runs of many requests: what they are, when two pair off, what is live after one, and the theorems over them. It has no
// code, and no crate uses it.

#![tactic(auto)]
