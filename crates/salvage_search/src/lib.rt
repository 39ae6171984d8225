// The search of salvage (document 02, §10) over the passes allowed.
#![tactic(auto)]

ghost use Rattle.salvage_search.specs.Search.{Searched};

use salvage_passes::{pass, tries};

// The number of passes after which a trial is correct, where up to `passes` passes over `s` yield one: each pass is followed by a trial on the
// copy `t`. Where one of the two is not of 2,352 bytes nothing changes and nothing is found.
pub fn search(s: &mut [u8], t: &mut [u8], passes: u8) -> Option<u8>
    ensures { Searched s.old t.old passes result s.new t.new }
{
    if s.len() != 2352 || t.len() != 2352 {
        return None;
    }
    for k in 1..=passes {
        pass(s, k);
        t.copy_from_slice(s);
        if tries(t) {
            return Some(k);
        }
    }
    None
}
