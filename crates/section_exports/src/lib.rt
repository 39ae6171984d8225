// What programs in other languages call of Sections, their Control bytes and edge captures: each function hands over to one of the crates below and says the same.
#![tactic(auto)]

mod controls;
mod edge_captures;
mod section_judging;
mod section_reading;
mod section_writing;
