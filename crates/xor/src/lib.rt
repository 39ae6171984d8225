// The sum modulo 2, bit by bit, which the field, EDC, scrambling and the inverted parity of CIRC all use.
#![tactic(auto)]

ghost use Rattle.std.specs.Prelude.{◌≡◌, cond, eqb, length};
ghost use Rattle.xor.specs.Added.{added};

// `what` is added to `to` and the answer is true; between different lengths nothing changes and the answer is false.
pub fn add(to: &mut [u8], what: &[u8]) -> bool
    ensures { (result ≡ eqb (length to.old) (length what.now))
        × (to.new ≡ cond result (added to.old what.now) to.old) }
{
    if to.len() != what.len() {
        return false;
    }
    for (i, w) in what.iter().enumerate() {
        to[i] ^= *w;
    }
    true
}
