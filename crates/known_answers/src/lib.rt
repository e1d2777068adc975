// Worked examples of the rules, as four tables: the twelve that the rules name, further ones, those of
// canaries, and those of whole votes. It has no code.

#![tactic(auto)]
