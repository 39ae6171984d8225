// Division of polynomials with coefficients modulo 2: definitions and laws (specs/), no code.
#![tactic(auto)]
