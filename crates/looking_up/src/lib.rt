// A word looked up in a table of words by a guide.
#![tactic(auto)]

ghost use Rattle.std.specs.Prelude.{◌≡◌, ◌<◌};
ghost use Rattle.words.specs.LookUp.{looked_up};

// The byte whose word w is, in any table and by any guide to it; none where the table has another word there.
pub fn look_up(words: &[u16; 256], guide: &[u8; 1351], w: u16) -> Option<u8>
    ensures { result ≡ looked_up words.now guide.now w }
{
    let slot = (w % 1351) as usize;
    let b = guide[slot];
    if words[b as usize] == w {
        Some(b)
    } else {
        None
    }
}
