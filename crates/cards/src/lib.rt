#![tactic(auto)]

// The bench cards of document 01 and further examples: specs/ lists them, what a definition gives beside what is expected of it from outside, and proofs/ proves each list.
