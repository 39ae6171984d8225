// The text of the report (document 01, "The report"): its lines.
#![tactic(auto)]

mod lines;

pub use lines::{fate_line, first_line, last_line, tail_line};

// A line of text: the first `len` of the bytes, and zeros after them. No line of the report is longer than 96 bytes.
// It is no `ArrayString`, since `Holds` fixes all of its bytes (`holds_one`).
#[derive(Clone, Copy)]
pub struct Text {
    pub bytes: [u8; 96],
    pub len: usize,
}
