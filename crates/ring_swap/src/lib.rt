// A step of rings without their places' moving (document 02, §9).
#![tactic(auto)]

ghost use Rattle.std.specs.Prelude.{◌≡◌};
ghost use Rattle.rings.specs.Swap.{rings_out, rings_next};

// Each row that waits changes its byte for the oldest of its ring; the places stay. The first row that does not fit and those after it stay as they are.
pub fn swap(lens: &[u8], places: &[u8], store: &mut [u8], word: &mut [u8])
    ensures { (word.new ≡ rings_out lens.now places.now store.old word.old)
        × (store.new ≡ rings_next lens.now places.now store.old word.old) }
{
    let mut base: usize = 0;
    let mut at: usize = 0;
    // By index: a proof doesn't learn what a loop over `iter_mut` under `zip` wrote, and `at` and `base` go on at some rows only.
    for k in 0..rings::smaller(lens.len(), word.len()) {
        let d = lens[k] as usize;
        if d == 0 {
            continue;
        }
        if places.len() <= at {
            return;
        }
        let p = places[at] as usize;
        if d <= p {
            return;
        }
        if store.len() - base < d {
            return;
        }
        let i = base + p;
        let oldest = store[i];
        store[i] = word[k];
        word[k] = oldest;
        base += d;
        at += 1;
    }
}
