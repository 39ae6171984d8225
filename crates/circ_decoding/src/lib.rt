// An F2-frame with its marks becomes the rows that carry an F1-frame (clause 17, Annex C; document 02, §7) over rings (document 02, §9): three stages of delays
// with C1 and C2 between them.
#![tactic(auto)]

ghost use Rattle.std.specs.Prelude.{◌++◌};
ghost use Rattle.circ_decoding.specs.Decoding.{Decodes};

mod waits;

use circ_codes::{pass_c1, pass_c2};
use circ_incoming::enter;
use waits::{AFTER_C2, BEFORE_C1, BETWEEN};

// The rows through all three stages, each with its mark as far as C2; the places stay.
pub fn decode(
    store: &mut [u8; 3082],
    places: &[u8; 56],
    frame: [u8; 32],
    marks: [u8; 32],
) -> [u8; 30]
    ensures { Decodes places.now store.old (frame ++ marks) store.new result }
{
    let mut c1 = enter(frame, marks);
    ring_turns::turn_with_marks(&BEFORE_C1, places, 0, store, 0, 16, &mut c1);
    let mut c2 = pass_c1(c1);
    ring_turns::turn_with_marks(&BETWEEN, places, 16, store, 32, 1544, &mut c2);
    let mut rows = pass_c2(c2);
    ring_turns::turn(&AFTER_C2, places, 43, store, 3056, &mut rows);
    rows
}
