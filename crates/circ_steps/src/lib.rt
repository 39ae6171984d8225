// Single steps of the CIRC writer and of the CIRC reader for callers in other languages, who hold the state, store and places, and may begin with any.
#![tactic(auto)]

ghost use Rattle.std.specs.Prelude.{◌≡◌, []};
ghost use Rattle.calls.specs.Step.{step};
ghost use Rattle.circ.specs.Rings.{writer_rings, writes_in_place, reader_rings, reads_in_place};
ghost use Rattle.circ_reader.specs.Answers as readers;
ghost use Rattle.told.specs.Told.{Tells, Told};

use circ::CircError;
use circ_reader::{Surety, read_in_place};
use circ_writer::write_in_place;
use outcome::Refusal;
use told::{number, tell};

// With a frame comes its doubt mark.
fn was_read(answer: Result<Surety, CircError>, doubt: &mut [u64; 1]) -> u8
    ensures { Tells 1 (readers.say_of answer) result doubt.new }
{
    match answer {
        Ok(surety) => tell(0, [u8::from(surety) as u64], doubt),
        Err(e) => tell(e.number(), [0], doubt),
    }
}

// A step of the writer from the state that is lent, which becomes the next.
pub fn write(store: &mut [u8; 1552], places: &mut [u8; 55], frame: &[u8], out: &mut [u8]) -> u8
    ensures { Told 0 (λ say. step say (writer_rings places.new store.new) out.new
        ≡ writes_in_place (writer_rings places.old store.old) frame.now out.old) result [] }
{
    number(write_in_place(store, places, frame, out))
}

// The same of the reader.
pub fn read(
    store: &mut [u8; 3082],
    places: &mut [u8; 56],
    frame: &[u8],
    marks: &[u8],
    out: &mut [u8],
    doubt: &mut [u64; 1],
) -> u8
    ensures { Told 1 (λ say. step say (reader_rings places.new store.new) out.new
        ≡ reads_in_place (reader_rings places.old store.old) frame.now marks.now out.old) result doubt.new }
{
    was_read(read_in_place(store, places, frame, marks, out), doubt)
}
