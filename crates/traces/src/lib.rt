// What the choice of Merging bits goes by (document 01, "Channel bits"): the level and the counts of bits at each level, the automaton's state,
// and which of two choices is the better one.
#![tactic(auto)]

ghost use Rattle.std.specs.Prelude.{◌≡◌, ◌-◌, if◌then◌else◌, nat_eq};
ghost use Rattle.merging.specs.Dsv.{absolute};
ghost use Rattle.traces.specs.Better.{better_of};
ghost use Rattle.traces.specs.Strokes.{spent};
ghost use Rattle.traces.specs.Traces.{light, fits};

use automaton_states::BROKEN;

// A count has room for a word more below this one, and far enough above it before it would wrap.
const FULL: u64 = 1152921504606846976;

// The level after what was written, 1 for +1 and 0 for -1, and how many bits there ever were at level +1 and at -1. The level is a number, since
// `is_light` takes every one and says which is no level: a bool would take fewer.
#[derive(Clone, Copy, Debug, PartialEq, Eq)]
pub struct Tally {
    pub level: u8,
    pub plus: u64,
    pub minus: u64,
}

// What was written so far, as far as it matters to the Merging bits that follow: the automaton's state, and the tally.
#[derive(Clone, Copy, Debug, PartialEq, Eq)]
pub struct Trace {
    pub run: u8,
    pub tally: Tally,
}

// Merging bits, with the word after them if there is one, and the trace after what follows them.
#[derive(Clone, Copy, Debug, PartialEq, Eq)]
pub struct Choice {
    pub bits: u32,
    pub after: Trace,
}

// The tally has room for a word more.
#[tactic(auto, unfolding(crate::specs::Traces::light))]
pub fn is_light(t: Tally) -> bool
    ensures { result ≡ light t }
{
    t.level <= 1 && t.plus < FULL && t.minus < FULL
}

// The rule is not broken, and the tally has room for a word more.
#[tactic(auto, unfolding(crate::specs::Traces::fits))]
pub fn is_fit(t: Trace) -> bool
    ensures { result ≡ fits t }
{
    t.run < BROKEN && is_light(t.tally)
}

// The level after an even or an odd number of ONEs.
fn flipped(level: u8, odd: u8) -> u8
    ensures { result ≡ (if nat_eq odd 0 then level else 1 - level) }
{
    if odd == 0 {
        level
    } else {
        1u8.saturating_sub(level)
    }
}

// The tally after some bits at a stroke: `same` of them at the level before them and `other` at the other one; the level flips if `odd` is not
// 0. The counts wrap, where a tally that has room for them does not come.
#[tactic(auto, unfolding(crate::specs::Strokes::spent))]
pub fn spend(t: Tally, same: u64, other: u64, odd: u8) -> Tally
    ensures { result ≡ spent t same other odd }
{
    let (ups, downs) = if t.level == 1 {
        (same, other)
    } else {
        (other, same)
    };
    Tally {
        level: flipped(t.level, odd),
        plus: t.plus.wrapping_add(ups),
        minus: t.minus.wrapping_add(downs),
    }
}

// The absolute DSV.
fn abs_dsv(t: Tally) -> u64
    ensures { result ≡ absolute t.plus t.minus }
{
    t.plus.abs_diff(t.minus)
}

// The second if it is allowed and the first isn't, or if both are and the second has the smaller absolute DSV.
#[tactic(auto, unfolding(crate::specs::Better::better_of))]
pub fn better_of(a: Choice, b: Choice) -> Choice
    ensures { result ≡ better_of a b }
{
    if b.after.run == BROKEN {
        return a;
    }
    if a.after.run == BROKEN || abs_dsv(b.after.tally) < abs_dsv(a.after.tally) {
        return b;
    }
    a
}
