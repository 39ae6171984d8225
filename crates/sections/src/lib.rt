// What holds of every Section that is ever written and read: laws (specs/), no code.
#![tactic(auto)]
