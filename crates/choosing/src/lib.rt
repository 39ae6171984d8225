// The choice of all Merging bits of a Channel Frame: its 33 words, each after its Merging bits, and the Merging bits before the next Sync Header.
#![tactic(auto)]

ghost use Rattle.std.specs.Prelude.{◌≡◌};
ghost use Rattle.choosing.specs.Choices.{frame_choice};

use traces::Tally;

mod word;

// The 33 words of a frame with their Merging bits, 17 bits each; the Merging bits before the next Sync Header; and the tally after them.
#[derive(Clone, Copy, Debug, PartialEq, Eq)]
pub struct FrameChoice {
    pub words: [u32; 33],
    pub tail: u32,
    pub after: Tally,
}

// What is chosen for a frame of these symbols: a byte stands for its word, 256 for SYNC 0 and 257 for SYNC 1. They come as numbers, since this function
// takes every number and says what is chosen for one that is no symbol's: an enum would take fewer.
pub fn choose_frame(before: Tally, symbols: [u16; 33]) -> FrameChoice
    ensures { result ≡ frame_choice before symbols }
{
    let table = profiles::profile_rows();
    let mut words = [0u32; 33];
    let mut t = header_choice::after_header(before);
    for (i, symbol) in symbols.iter().enumerate() {
        let c = word::choose_word(&table, t, *symbol as usize);
        words[i] = c.bits;
        t = c.after;
    }
    let tail = header_choice::choose_header(t);
    FrameChoice {
        words,
        tail: tail.bits,
        after: tail.after,
    }
}
