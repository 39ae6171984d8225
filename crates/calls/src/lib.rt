// Calls of something that carries a state, one after the other: definitions and laws only.
#![tactic(auto)]
