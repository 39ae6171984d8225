// Bits and the numbers and bytes that they make up, the most significant first: definitions and laws (specs/), no code.
#![tactic(auto)]
