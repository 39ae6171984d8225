// Sections as the edges of a capture (document 02, §5): definitions and laws only.
#![tactic(auto)]
