// The 98 Channel Frames of a Section (clauses 18 and 19.4), from the tally that the Section begins with to the one that it ends with.
#![tactic(auto)]

ghost use Rattle.std.specs.Prelude.{◌≡◌};
ghost use Rattle.section_frames.specs.Frames.{near, FramesLaid};

use traces::Tally;

mod frame;
mod pen;
mod symbols;

// The farthest that a DSV gets: 450,000 Sections of 57,624 bits, all at one level.
const FARTHEST: u64 = 25930800000;

// The level is one, and no count is greater than one that a Section may begin with.
#[tactic(auto, unfolding(crate::specs::Frames::near))]
fn is_near(t: Tally) -> bool
    ensures { result ≡ near t }
{
    t.level <= 1 && t.plus <= FARTHEST && t.minus <= FARTHEST
}

// The Channel bits of a Section. Where a length is wrong or the tally is none that a Section begins with, nothing is written, and the tally stays.
#[tactic(auto, using(crate::specs::Frames::Due::nothing, crate::specs::Frames::Due::all_laid, crate::specs::Frames::Due::near_within), unfolding(crate::specs::Frames::due))]
pub fn write_frames(out: &mut [u8], t: Tally, frames: &[u8], control: &[u8]) -> Tally
    ensures { FramesLaid t frames.now control.now out.old out.new result }
{
    if out.len() != 7203 || frames.len() != 3136 || control.len() != 96 || !is_near(t) {
        return t;
    }
    frame::write_all(out, t, frames, control)
}
