// The field of 256 elements (Annex A.3, Annex C.7): definitions and laws only; `products` and `inverses` have the code.
#![tactic(auto)]
