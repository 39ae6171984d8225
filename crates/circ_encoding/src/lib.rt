// An F1-frame becomes an F2-frame (clause 17, Annex C) over rings (document 02, §9): three stages of delays with C2 and C1 between them.
#![tactic(auto)]

ghost use Rattle.circ_encoding.specs.Encoding.{Encodes};

mod waits;

use circ_rows::{fill_p, fill_q, place};
use waits::{AFTER_C1, BEFORE_C2, BETWEEN};

// The rows through all three stages, with Q and P between them, and all parity inverted at last; the places stay.
pub fn encode(store: &mut [u8; 1552], places: &[u8; 55], frame: [u8; 24]) -> [u8; 32]
    ensures { Encodes places.now store.old frame store.new result }
{
    let mut rows = place(frame);
    ring_turns::turn(&BEFORE_C2, places, 0, store, 0, &mut rows);
    let mut c2 = fill_q(rows);
    ring_turns::turn(&BETWEEN, places, 12, store, 24, &mut c2);
    let mut c1 = fill_p(c2);
    ring_turns::turn(&AFTER_C1, places, 39, store, 1536, &mut c1);
    circ::invert(c1)
}
