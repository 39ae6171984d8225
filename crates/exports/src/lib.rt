// What programs in other languages call of Sectors and Data Frames: each function hands over to one of the crates below and says the same.
#![tactic(auto)]

mod batches;
mod data_frames;
mod judging;
mod repairing;
mod sector_salvage;
mod writing;
