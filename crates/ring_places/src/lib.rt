// The places of rings (document 02, §9): whether they are legal, and what they are a step later.
#![tactic(auto)]

ghost use Rattle.std.specs.Prelude.{◌≡◌};
ghost use Rattle.rings.specs.Ring.{following};
ghost use Rattle.rings.specs.Rings.{below, onward};

// Whether each place is below its wait, as far as both go. No row stands here that does not wait.
pub fn below(waits: &[u8], places: &[u8]) -> bool
    ensures { result ≡ below waits.now places.now }
{
    waits.iter().zip(places).all(|(d, p)| p < d)
}

// The place after `p` in a ring of `d` bytes.
fn following(d: u8, p: u8) -> u8
    ensures { result ≡ following d p }
{
    match p.checked_add(1) {
        Some(q) if q < d => q,
        _ => 0,
    }
}

// Each place goes on, and back to 0 at the end of its ring. No row stands here that does not wait.
pub fn onward(waits: &[u8], places: &mut [u8])
    ensures { places.new ≡ onward waits.now places.old }
{
    // By index: a proof doesn't learn what a loop over `iter_mut` under `zip` wrote.
    for k in 0..rings::smaller(waits.len(), places.len()) {
        places[k] = following(waits[k], places[k]);
    }
}
