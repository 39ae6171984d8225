// The CIRC reader (clause 17, Annex C; document 02, §7): F2-frames of 32 bytes, each with its mark, become F1-frames of 24 again. Its state is the bytes and
// marks that wait, in rings in one flat store (document 02, §9), and a place for each row that waits: a mark is at its byte's place.
#![tactic(auto)]

ghost use Rattle.std.specs.Prelude.{◌≡◌, ◌++◌, ◌≤◌, length};
ghost use Rattle.lines.specs.Delay.{zeros};
ghost use Rattle.circ.specs.Rows.{collected, doubt};
ghost use Rattle.circ.specs.Marked.{fresh_reader};
ghost use Rattle.circ.specs.Rings.{reader_rings, reads_in_place};
ghost use Rattle.circ_reader.specs.Answers.{mark_of, say_of};
ghost use Rattle.calls.specs.Step.{step};
ghost use Rattle.circ_reader.specs.Inner.Reading.{ReaderAsks, ReaderGone};

mod ring_lengths;

use circ::CircError;
use ring_lengths::RING_LENGTHS;

// 16 bytes in as many rows wait before C1 and 1,512 in 27 between C1 and C2, each with its mark, and 24 bytes and two doubts in 13 after C2. Any mark but 0 marks.
// It stands beside `CircWriter` and not in one generic struct with it: both are no more than two arrays, and their steps take different things.
#[derive(Clone, Copy)]
pub struct CircReader {
    pub store: [u8; 3082],
    pub places: [u8; 56],
}

// The 24 bytes are sure, or in doubt because for a C2 word that they came from no codeword was found.
#[derive(Clone, Copy, Debug, PartialEq, Eq)]
pub enum Surety {
    Sure,
    InDoubt,
}

// The doubt mark.
impl From<Surety> for u8 {
    ghost from_gives = { λ s mark. mark ≡ mark_of s };

    fn from(surety: Surety) -> u8 {
        match surety {
            Surety::Sure => 0,
            Surety::InDoubt => 1,
        }
    }
}

#[derive(Clone, Copy)]
pub struct ReaderStep {
    pub next: CircReader,
    pub answer: Result<Surety, CircError>,
}

// The F1-frame in the rows.
fn collect(rows: &[u8]) -> [u8; 24]
    requires { 28 ≤ length rows.now }
    ensures { result ≡ collected rows.now }
{
    [
        rows[0], rows[1], rows[6], rows[7], rows[16], rows[17], rows[22], rows[23], rows[2],
        rows[3], rows[8], rows[9], rows[18], rows[19], rows[24], rows[25], rows[4], rows[5],
        rows[10], rows[11], rows[20], rows[21], rows[26], rows[27],
    ]
}

// In doubt where either of the two marks is set.
fn surety_of(rows: &[u8]) -> Surety
    requires { 30 ≤ length rows.now }
    ensures { mark_of result ≡ doubt rows.now }
{
    if rows[28] != 0 || rows[29] != 0 {
        return Surety::InDoubt;
    }
    Surety::Sure
}

// The F1-frame in the rows goes out, and is sure or in doubt.
fn hand_out(rows: &[u8], out: &mut [u8]) -> Surety
    requires { (30 ≤ length rows.now) × (length out.old ≡ 24) }
    ensures { (mark_of result ≡ doubt rows.now) × (out.new ≡ collected rows.now) }
{
    let f1 = collect(rows);
    outcome::copy(&f1, out);
    surety_of(rows)
}

// The step where all lengths and all places are right.
fn go(
    store: &mut [u8; 3082],
    places: &mut [u8; 56],
    frame: &[u8],
    marks: &[u8],
    out: &mut [u8],
) -> Surety
    requires { ReaderAsks places.old frame.now marks.now out.old }
    ensures { ReaderGone places.old store.old (frame.now ++ marks.now) places.new store.new (mark_of result) out.new }
{
    let mut f2 = [0u8; 32];
    outcome::copy(frame, &mut f2);
    let mut lost = [0u8; 32];
    outcome::copy(marks, &mut lost);
    let rows = circ_decoding::decode(store, places, f2, lost);
    ring_places::onward(&RING_LENGTHS, places);
    hand_out(&rows, out)
}

// An F2-frame of 32 bytes and as many marks in, an F1-frame of 24 out, sure or in doubt. The state is lent and becomes the next; a refusal leaves it.
// Store and places are lent apart, since callers in other languages hold them so (`road_circ_read_step`).
pub fn read_in_place(
    store: &mut [u8; 3082],
    places: &mut [u8; 56],
    frame: &[u8],
    marks: &[u8],
    out: &mut [u8],
) -> Result<Surety, CircError>
    ensures { step (say_of result) (reader_rings places.new store.new) out.new
        ≡ reads_in_place (reader_rings places.old store.old) frame.now marks.now out.old }
{
    if frame.len() != 32 || marks.len() != 32 {
        outcome::wipe(out, 24);
        return Err(CircError::WrongIncoming);
    }
    if out.len() != 24 {
        return Err(CircError::WrongOutgoing);
    }
    if !ring_places::below(&RING_LENGTHS, places) {
        outcome::wipe(out, 24);
        return Err(CircError::WrongPlace);
    }
    Ok(go(store, places, frame, marks, out))
}

impl CircReader {
    // As if the F2-frames of endless zero F1-frames had gone before.
    pub fn new() -> Self
        ensures { (result.store ≡ fresh_reader) × (result.places ≡ zeros 56) }
    {
        CircReader {
            store: [0u8; 3082],
            places: [0u8; 56],
        }
    }

    // The same of a state by value: a refused step hands it back as it was.
    pub fn step(self, frame: &[u8], marks: &[u8], out: &mut [u8]) -> ReaderStep
        ensures { step (say_of result.answer) (reader_rings result.next.places result.next.store) out.new
            ≡ reads_in_place (reader_rings self.places self.store) frame.now marks.now out.old }
    {
        let mut next = self;
        let answer = read_in_place(&mut next.store, &mut next.places, frame, marks, out);
        ReaderStep { next, answer }
    }
}
