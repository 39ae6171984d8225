// What an entry answers that takes a Sector's 2,352 bytes and gives 2,352.
#![tactic(auto)]

ghost use Rattle.entry.specs.Entry.{refusal_of};

use outcome::Refusal;

// The bytes of a Sector, and so of its 98 frames of 24.
pub const SECTOR: usize = 2352;

// Why nothing is made.
#[derive(Clone, Copy, Debug, PartialEq, Eq)]
pub enum EntryError {
    WrongIncoming,
    WrongOutgoing,
}

impl Refusal for EntryError {
    ghost refusal_of = { refusal_of };

    fn number(self) -> u8 {
        match self {
            EntryError::WrongIncoming => 1,
            EntryError::WrongOutgoing => 2,
        }
    }
}
