// The fault of a word of a code (Annex A, Annex C.7): its sums say whether one wrong byte explains them, and where it would stand.
#![tactic(auto)]

ghost use Rattle.std.specs.Prelude.{◌≡◌, get_or};
ghost use Rattle.outcome.specs.First.{first_below};
ghost use Rattle.codeword.specs.Fault.{fault, fault_at, fits};

use codeword::Fault;
use products::times_power;

// The longest word that the codes can mend: below α^255 no two powers of α are equal.
// It stands in each of three crates, whose wrong program turns it there.
const LONGEST: usize = 255;

// How many bytes come after the one that is wrong: the first m below k with s_j = s_0 α^(jm) for each sum j, or k.
fn after<const N: usize>(sums: [u8; N], first: u8, k: usize) -> usize
    requires { first ≡ get_or sums 0 0 }
    ensures { result ≡ first_below (fits sums.entry) k }
{
    let mut expected = [first; N];
    for m in 0..k {
        if expected == sums {
            return m;
        }
        for (j, sum) in expected.iter_mut().enumerate() {
            *sum = times_power(*sum, j);
        }
    }
    k
}

// The byte that m bytes come after is wrong by e, where a word of k bytes has it.
fn fault_at(e: u8, k: usize, m: usize) -> Fault
    ensures { result ≡ fault_at e k m }
{
    if m < k {
        Fault::At(k - 1 - m, e)
    } else {
        Fault::Lost
    }
}

// The fault of a word of k bytes with these first sums.
pub fn fault<const N: usize>(sums: [u8; N], k: usize) -> Fault
    ensures { result ≡ fault sums.entry k }
{
    if LONGEST < k {
        return Fault::Lost;
    }
    if sums == [0; N] {
        return Fault::Clean;
    }
    let first = sums[0];
    fault_at(first, k, after(sums, first, k))
}
