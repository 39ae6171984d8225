// Which Merging bits are allowed and which are chosen: definitions and laws (specs/), no code.
#![tactic(auto)]
