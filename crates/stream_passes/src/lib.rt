// Laws only: what our Section writer makes is accepted, and what is accepted is read.
#![tactic(auto)]
