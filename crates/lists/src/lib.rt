// Lists of bytes: definitions and laws only.
#![tactic(auto)]
