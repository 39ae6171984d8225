// The choice of the Merging bits before a word, by the word's profile.
ghost use Rattle.std.specs.Prelude.{◌≡◌, ◌≤◌};
ghost use Rattle.bits.specs.Bits.{bits_of};
ghost use Rattle.merging.specs.Chosen.{m000};
ghost use Rattle.words.specs.Symbols.{symbols};
ghost use Rattle.automaton_states.specs.States.{one_after};
ghost use Rattle.profiles.specs.Profiles.{Profiled, rows};
ghost use Rattle.traces.specs.Traces.{Fit};
ghost use Rattle.choosing.specs.Choices.{chosen_word, word_choice};
ghost use Rattle.choosing.specs.Inner.{WordStands};

use profiles::Profile;
use traces::{Choice, Trace};

// Merging bits with a ONE after `before` ZEROs, and the word.
fn with_one(t: Trace, p: Profile, before: u8) -> Choice
    requires { Fit t × Profiled p.word p × (before ≤ 2) }
    ensures { WordStands t (bits_of 14 p.word) result (one_after before) }
{
    let entry = automaton_states::enter(t.run, before, 2 - before, 13 - before);
    let a = before as u64;
    Choice {
        bits: (0b100 >> before) * 16384 + p.word,
        after: Trace {
            run: automaton_states::after_word(entry, p.lead, p.plain, p.ten),
            tally: traces::spend(t.tally, a + (14 - p.ups), (3 - a) + p.ups, 1 - p.odd),
        },
    }
}

// The Merging bits 000, and the word.
fn without_one(t: Trace, p: Profile) -> Choice
    requires { Fit t × Profiled p.word p }
    ensures { WordStands t (bits_of 14 p.word) result m000 }
{
    let entry = automaton_states::after_zeros(t.run);
    Choice {
        bits: p.word,
        after: Trace {
            run: automaton_states::after_word(entry, p.lead, p.plain, p.ten),
            tally: traces::spend(t.tally, 3 + p.ups, 14 - p.ups, p.odd),
        },
    }
}

// The Merging bits before a word, and the word: of equals 100 goes before 010, this before 001, and 000 comes last.
fn best(t: Trace, p: Profile) -> Choice
    requires { Fit t × Profiled p.word p }
    ensures { result ≡ chosen_word t (bits_of 14 p.word) }
{
    let a = with_one(t, p, 0);
    let b = with_one(t, p, 1);
    let c = with_one(t, p, 2);
    let d = without_one(t, p);
    traces::better_of(traces::better_of(traces::better_of(a, b), c), d)
}

// What is chosen for symbol k.
pub(crate) fn choose_word(table: &[u8; 2064], t: Trace, k: usize) -> Choice
    requires { table.now ≡ rows symbols }
    ensures { result ≡ word_choice t k }
{
    if traces::is_fit(t) && k < 258 {
        return best(t, profiles::profile_of(table, k));
    }
    Choice { bits: 0, after: t }
}
