// Division by the generator of C1 and C2 (Annex C.7), whose roots are 1, α, α² and α³: what is left of a word in a register, and the rows of the tables that give it.
// Definitions and laws only; `generator_tables`, `generator_steps` and `generator` have the code.
#![tactic(auto)]
