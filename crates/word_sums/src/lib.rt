// The first sums of a word of a code (Annex A, Annex C.7) in one pass: with each byte, sum j so far is taken times α^j and the byte is added (Horner).
#![tactic(auto)]

ghost use Rattle.std.specs.Prelude.{◌≡◌};
ghost use Rattle.codeword.specs.Code.{sums};

use products::times_power;

// Sums 0 to N - 1.
pub fn sums<const N: usize>(w: &[u8]) -> [u8; N]
    ensures { result ≡ sums N w.now }
{
    let mut sums = [0; N];
    for b in w {
        for (j, sum) in sums.iter_mut().enumerate() {
            *sum = times_power(*sum, j) ^ *b;
        }
    }
    sums
}
