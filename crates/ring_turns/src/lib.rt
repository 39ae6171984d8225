// A step of one stage's rings among those of other stages (document 02, §9), and of a word's rings together with its marks'.
#![tactic(auto)]

ghost use Rattle.std.specs.Prelude.{◌≡◌, ◌++◌, take, drop};
ghost use Rattle.rings.specs.Swap.{rings_out, rings_next, both_out, both_next};

// Each row that waits changes its byte for the oldest of its ring (`ring_swap::swap`), where a stage's places and its part of the store begin somewhere behind others.
pub fn turn(
    lens: &[u8],
    places: &[u8],
    first: usize,
    store: &mut [u8],
    from: usize,
    word: &mut [u8],
)
    ensures { (word.new ≡ rings_out lens.now (drop first places.now) (drop from store.old) word.old)
        × (store.new ≡ take from store.old ++ rings_next lens.now (drop first places.now) (drop from store.old) word.old) }
{
    let start = rings::smaller(first, places.len());
    let base = rings::smaller(from, store.len());
    ring_swap::swap(lens, &places[start..], &mut store[base..], word);
}

// A word's rows, and behind them its marks, each through rings of their own at the same places; the marks' rings begin at the byte `marks`.
pub fn turn_with_marks(
    lens: &[u8],
    places: &[u8],
    first: usize,
    store: &mut [u8],
    from: usize,
    marks: usize,
    word: &mut [u8],
)
    ensures { (word.new ≡ both_out lens.now (drop first places.now) store.old from marks word.old)
        × (store.new ≡ both_next lens.now (drop first places.now) store.old from marks word.old) }
{
    let rows = rings::smaller(lens.len(), word.len());
    turn(lens, places, first, store, from, &mut word[..rows]);
    turn(lens, places, first, store, marks, &mut word[rows..]);
}
