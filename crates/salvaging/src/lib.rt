// Salvage with both parities (document 02, §10): definitions and laws only.
#![tactic(auto)]
