// The CIRC writer (clause 17, Annex C): F1-frames of 24 bytes become F2-frames of 32. Its state is the bytes that wait, in
// rings in one flat store (document 02, §9), and a place for each row that waits.
#![tactic(auto)]

ghost use Rattle.std.specs.Prelude.{◌≡◌};
ghost use Rattle.circ.specs.Chains.{fresh_writer};
ghost use Rattle.circ_writer.specs.Answers.{say_of};
ghost use Rattle.circ_writer.specs.Inner.Writing.{WriterAsks, WriterGone};
ghost use Rattle.lines.specs.Delay.{zeros};
ghost use Rattle.calls.specs.Step.{step};
ghost use Rattle.circ.specs.Rings.{writer_rings, writes_in_place};

mod ring_lengths;

use circ::CircError;
use ring_lengths::RING_LENGTHS;

// 24 bytes in 12 rows wait before C2, 1,512 in 27 between C2 and C1, and 16 in as many after C1.
#[derive(Clone, Copy)]
pub struct CircWriter {
    pub store: [u8; 1552],
    pub places: [u8; 55],
}

#[derive(Clone, Copy)]
pub struct WriterStep {
    pub next: CircWriter,
    pub answer: Result<(), CircError>,
}

// The step where both lengths and all places are right.
fn go(store: &mut [u8; 1552], places: &mut [u8; 55], frame: &[u8], out: &mut [u8])
    requires { WriterAsks places.old frame.now out.old }
    ensures { WriterGone places.old store.old frame.now places.new store.new out.new }
{
    let mut f1 = [0u8; 24];
    outcome::copy(frame, &mut f1);
    let f2 = circ_encoding::encode(store, places, f1);
    outcome::copy(&f2, out);
    ring_places::onward(&RING_LENGTHS, places);
}

// An F1-frame of 24 bytes in, an F2-frame of 32 out. The state is lent and becomes the next; a refusal leaves it.
// Store and places are lent apart, since callers in other languages hold them so (`road_circ_write_step`).
pub fn write_in_place(
    store: &mut [u8; 1552],
    places: &mut [u8; 55],
    frame: &[u8],
    out: &mut [u8],
) -> Result<(), CircError>
    ensures { step (say_of result) (writer_rings places.new store.new) out.new
        ≡ writes_in_place (writer_rings places.old store.old) frame.now out.old }
{
    if frame.len() != 24 {
        outcome::wipe(out, 32);
        return Err(CircError::WrongIncoming);
    }
    if out.len() != 32 {
        return Err(CircError::WrongOutgoing);
    }
    if !ring_places::below(&RING_LENGTHS, places) {
        outcome::wipe(out, 32);
        return Err(CircError::WrongPlace);
    }
    go(store, places, frame, out);
    Ok(())
}

impl CircWriter {
    // As if endless zero F1-frames had gone before.
    pub fn new() -> Self
        ensures { (result.store ≡ fresh_writer) × (result.places ≡ zeros 55) }
    {
        CircWriter {
            store: [0u8; 1552],
            places: [0u8; 55],
        }
    }

    // The same of a state by value: a refused step hands it back as it was.
    pub fn step(self, frame: &[u8], out: &mut [u8]) -> WriterStep
        ensures { step (say_of result.answer) (writer_rings result.next.places result.next.store) out.new
            ≡ writes_in_place (writer_rings self.places self.store) frame.now out.old }
    {
        let mut next = self;
        let answer = write_in_place(&mut next.store, &mut next.places, frame, out);
        WriterStep { next, answer }
    }
}
