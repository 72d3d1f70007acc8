#![tactic(auto)]

// Demand 2: what the server sends has the shape of the chip's replies in the ELM327 datasheet. Statement and proof stand in specs/ and proofs/; there is no code.
