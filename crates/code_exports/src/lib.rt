// What programs in other languages call of the field, codewords and the EDC: each function hands over to one of the crates below and says the same.
#![tactic(auto)]

mod codewords;
mod elements;
mod remainders;
