// The run of a report (document 01, "The report"): definitions and laws only.
#![tactic(auto)]
