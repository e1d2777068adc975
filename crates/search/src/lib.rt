// Numbers counted upward, the first that passes a test and the list of what a function gives at each: definitions and
// their laws, for the contracts and proofs of the crates above. It has no code.

#![tactic(auto)]
