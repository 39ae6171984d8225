// The state of the automaton of two to ten ZEROs (clause 19) after some bits, without a step for each: after Merging bits, after a word, and
// before the 23rd bit of a Sync Header.
#![tactic(auto)]

ghost use Rattle.std.specs.Prelude.{◌≡◌};
ghost use Rattle.automaton_states.specs.States.{entered, after_word, after_zeros, header_after_one, header_after_zeros};

// A state is the number of ZEROs since the last ONE, plus 11 where exactly ten stand before that ONE: 0 to 21. This one says that the rule is
// broken. It is no `None`, since each state is a byte of the profiles' rows, where 22 stands too: with options, each would first be made of its byte.
pub const BROKEN: u8 = 22;

// The state after some ZEROs and a ONE, which leads to `ten` if ten ZEROs stand before it, and else to `plain`.
#[tactic(auto, unfolding(crate::specs::States::entered))]
pub fn enter(run: u8, zeros: u8, plain: u8, ten: u8) -> u8
    ensures { result ≡ entered run zeros plain ten }
{
    match (run % 11) as u32 + zeros as u32 {
        2..=9 => plain,
        10 if run < 11 => ten,
        _ => BROKEN,
    }
}

// The state after a word: `lead` ZEROs, and a ONE with the rest of the word, which lead to `ten` or to `plain`.
pub fn after_word(run: u8, lead: u8, plain: u8, ten: u8) -> u8
    ensures { result ≡ after_word run lead plain ten }
{
    if run == BROKEN {
        return BROKEN;
    }
    enter(run, lead, plain, ten)
}

// The state after 000.
pub fn after_zeros(run: u8) -> u8
    ensures { result ≡ after_zeros run }
{
    if run < BROKEN && run % 11 < 8 {
        run + 3
    } else {
        BROKEN
    }
}

// The state before a Sync Header's 23rd bit, after 100.
pub fn header_after_one(run: u8) -> u8
    ensures { result ≡ header_after_one run }
{
    if run % 11 < 2 || run == 21 {
        BROKEN
    } else {
        21
    }
}

// And after 000.
pub fn header_after_zeros(run: u8) -> u8
    ensures { result ≡ header_after_zeros run }
{
    if run % 11 < 7 { 21 } else { BROKEN }
}
