// The rules of the heap: what opening, each request and inspection come to. It has no code.

#![tactic(auto)]
