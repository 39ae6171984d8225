// Codewords over the field of 256 elements (Annex A, Annex C.7): definitions and laws, and what is said of a word; `word_sums`, `word_parity`, `faults` and `verdicts`
// have the code.
#![tactic(auto)]

// What the sums of a word say: nothing is wrong; one byte is, at a place, and what is to be added to it; or no codeword is near. All three are answers on
// equal terms, so that a Result with an Option in it would say less than their names.
#[derive(Clone, Copy, Debug, PartialEq, Eq)]
pub enum Fault {
    Clean,
    At(usize, u8),
    Lost,
}

// What to do with a word: nothing; one byte to change, its place and its new value; or no codeword is near. Three answers too.
#[derive(Clone, Copy, Debug, PartialEq, Eq)]
pub enum Verdict {
    Clean,
    Change(usize, u8),
    Lost,
}
