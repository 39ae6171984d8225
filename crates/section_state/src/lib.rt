// The state that a Section writer carries, signed as document 01 says it, and the tally that a Section is written with.
#![tactic(auto)]

ghost use Rattle.std.specs.Prelude.{◌≡◌, ltb};
ghost use Rattle.section_state.specs.Carried.{most_sections, possible, level_then};
ghost use Rattle.section_state.specs.Tallies.{beginning, dsv_then};

use traces::Tally;

mod signed;

// A writer writes at most so many Sections.
const MOST_SECTIONS: u64 = 450000;

// Counts below this one have a difference within 64 bits, and no writer counts so far.
const COUNT_LIMIT: u64 = 1152921504606846976;

// The state is one that a writer can be in.
pub fn is_possible(dsv: i64, level: i64, sections: u64) -> bool
    ensures { result ≡ possible dsv level sections }
{
    signed::level_right(level) && sections <= MOST_SECTIONS && signed::within(dsv, 57624 * sections)
}

// One Section more may be written.
pub fn has_room(sections: u64) -> bool
    ensures { result ≡ ltb sections most_sections }
{
    sections < MOST_SECTIONS
}

// The tally that a Section begins with.
pub fn begin(dsv: i64, level: i64) -> Tally
    ensures { result ≡ beginning dsv level }
{
    Tally {
        level: signed::level_now(level),
        plus: signed::above_of(dsv),
        minus: signed::below_of(dsv),
    }
}

// The DSV after a Section.
#[tactic(auto, unfolding(crate::specs::Tallies::dsv_then))]
pub fn dsv_after(t: Tally) -> i64
    ensures { result ≡ dsv_then t.plus t.minus }
{
    if t.plus < COUNT_LIMIT && t.minus < COUNT_LIMIT {
        signed::dsv_of(t.plus, t.minus)
    } else {
        0
    }
}

// The level after a Section.
pub fn level_after(t: Tally) -> i64
    ensures { result ≡ level_then t.level }
{
    if t.level == 0 { -1 } else { 1 }
}
