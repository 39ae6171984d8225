// Figures of document 01 ("Figures to meet"); they stand in specs/, and there is no code.
#![tactic(auto)]
