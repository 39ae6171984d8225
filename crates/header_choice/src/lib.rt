// The trace after a Sync Header, and the choice of the Merging bits before the next one (document 01, "Channel bits").
#![tactic(auto)]

ghost use Rattle.std.specs.Prelude.{◌≡◌, cond, eqb};
ghost use Rattle.header_choice.specs.HeaderChoice.{after_header, tail_choice, before_next_header};
ghost use Rattle.header_choice.specs.Inner.{HeaderStands};
ghost use Rattle.traces.specs.Traces.{Fit};
ghost use Rattle.traces.specs.Strokes.{spent};

use traces::{Choice, Tally, Trace};

// Merging bits before a Sync Header, and the tally after them.
#[derive(Clone, Copy, Debug, PartialEq, Eq)]
pub struct Tail {
    pub bits: u32,
    pub after: Tally,
}

// The automaton's state after a Sync Header: one ZERO since a ONE that has ten ZEROs before it.
const HEADED: u8 = 12;

// The trace after a Sync Header.
pub fn after_header(t: Tally) -> Trace
    ensures { result ≡ after_header t }
{
    if traces::is_light(t) {
        return Trace {
            run: HEADED,
            tally: traces::spend(t, 11, 13, 1),
        };
    }
    Trace {
        run: HEADED,
        tally: t,
    }
}

// The better of 100 and 000 before a Sync Header.
fn best(t: Trace) -> Choice
    requires { Fit t }
    ensures { HeaderStands t result (before_next_header t) }
{
    let one = Choice {
        bits: 0b100,
        after: Trace {
            run: automaton_states::header_after_one(t.run),
            tally: traces::spend(t.tally, 13, 14, 0),
        },
    };
    let zeros = Choice {
        bits: 0b000,
        after: Trace {
            run: automaton_states::header_after_zeros(t.run),
            tally: traces::spend(t.tally, 14, 13, 1),
        },
    };
    traces::better_of(one, zeros)
}

// The tally after the Merging bits 000 or 100.
fn merged(t: Tally, bits: u32) -> Tally
    ensures { result ≡ cond (eqb bits 0) (spent t 3 0 0) (spent t 0 3 1) }
{
    if bits == 0 {
        traces::spend(t, 3, 0, 0)
    } else {
        traces::spend(t, 0, 3, 1)
    }
}

// What is chosen before the next Sync Header.
pub fn choose_header(t: Trace) -> Tail
    ensures { result ≡ tail_choice t }
{
    if traces::is_fit(t) {
        let c = best(t);
        return Tail {
            bits: c.bits,
            after: merged(t.tally, c.bits),
        };
    }
    Tail {
        bits: 0,
        after: t.tally,
    }
}
