// What replaying a capture means (document 02, §5): definitions and laws only.
#![tactic(auto)]
