// Bytes that are lost at known places (document 02, §7): definitions and laws only; `filling` has the code.
#![tactic(auto)]
