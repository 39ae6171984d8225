// CIRC (clause 17, Annex C): F1-frames of 24 bytes become F2-frames of 32 and come back. Here is what a step does, in specs/, why one is refused, and the
// one thing that writer and reader both do to a whole frame.
#![tactic(auto)]

ghost use Rattle.std.specs.Prelude.{◌≡◌};
ghost use Rattle.circ.specs.Rows.{inverted};
ghost use Rattle.circ.specs.Refusals.{refusal_of};

mod mask;

use mask::MASK;
use outcome::Refusal;

// Why a step of the writer or of the reader is refused.
#[derive(Clone, Copy, Debug, PartialEq, Eq)]
pub enum CircError {
    WrongIncoming,
    WrongOutgoing,
    WrongPlace,
}

impl Refusal for CircError {
    ghost refusal_of = { refusal_of };

    fn number(self) -> u8 {
        match self {
            CircError::WrongIncoming => 1,
            CircError::WrongOutgoing => 2,
            CircError::WrongPlace => 6,
        }
    }
}

// The 32 rows with their parity inverted.
pub fn invert(rows: [u8; 32]) -> [u8; 32]
    ensures { result ≡ inverted rows }
{
    let mut r = rows;
    xor::add(&mut r, &MASK);
    r
}
