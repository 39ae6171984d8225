// What the places of a Channel Frame give when it is read (document 01, "Channel bits"; document 02, §6): a byte and a mark for each word, and
// zeros with mark 4 for a frame that is lost.
#![tactic(auto)]

ghost use Rattle.std.specs.Prelude.{◌≡◌, cond, eqb, length, replicate};
ghost use Rattle.words.specs.Words.{sync0, sync1};
ghost use Rattle.words.specs.LookUp.{looked_up};
ghost use Rattle.word_marks.specs.Marks.{byte_for, mark_for};

// A byte that was read, and its mark: document 01's number, as it comes into the caller's buffer of marks.
#[derive(Clone, Copy, Debug, PartialEq, Eq)]
pub struct Reading {
    pub byte: u8,
    pub mark: u8,
}

// The two SYNCs, which stand in the place of a Control word and are no words of bytes.
const SYNC_0: u16 = 0b00100000000001;

const SYNC_1: u16 = 0b00000000010010;

// The mark of a word that is none of the table: SYNCs are told from others in a Control place.
fn unknown_mark(w: u16, i: usize) -> u8
    ensures { result ≡ cond (eqb i 0) (cond (eqb w sync0) 2 (cond (eqb w sync1) 3 1)) 1 }
{
    match (i, w) {
        (0, SYNC_0) => 2,
        (0, SYNC_1) => 3,
        _ => 1,
    }
}

// The byte and the mark of a word at place i of a frame, in any table and by any guide to it.
pub fn read_word(table: &[u16; 256], guide: &[u8; 1351], w: u16, i: usize) -> Reading
    ensures { (result.byte ≡ byte_for (looked_up table.now guide.now w)) × (result.mark ≡ mark_for (looked_up table.now guide.now w) w i) }
{
    match looking_up::look_up(table, guide, w) {
        Some(byte) => Reading { byte, mark: 0 },
        None => Reading {
            byte: 0,
            mark: unknown_mark(w, i),
        },
    }
}

// What is written of a frame without a Sync Header: bytes 0 and marks 4.
pub fn lose_frame(bytes: &mut [u8], marks: &mut [u8])
    ensures { (bytes.new ≡ replicate (length bytes.old) 0) × (marks.new ≡ replicate (length marks.old) 4) }
{
    bytes.fill(0);
    marks.fill(4);
}
