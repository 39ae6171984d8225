// Definitions and laws only: which streams of Sections are accepted, and which offence comes back of the others.
#![tactic(auto)]
