// What programs in other languages call of scrambling, F1-frames and CIRC: each function hands over to one of the crates below and says the same.
#![tactic(auto)]

mod alignments;
mod circ_running;
mod frames;
