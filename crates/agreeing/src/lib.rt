// The codeword that agrees with a word on its unmarked bytes, as a function (document 02, §7): definitions and laws only.
#![tactic(auto)]
