// The EDC (clause 14.3): definitions and laws only; `edc_table`, `edc_steps` and `edc_division` have the code.
#![tactic(auto)]
