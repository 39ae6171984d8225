// One codeword of a parity of a Sector (Annex A) mended in place, by its sums.
#![tactic(auto)]

ghost use Rattle.std.specs.Prelude.{◌≡◌};
ghost use Rattle.codeword.specs.Fault.{fault};
ghost use Rattle.rspc.specs.Columns.{in_column};
ghost use Rattle.rspc.specs.Either.{rows_of};
ghost use Rattle.word_mending.specs.Mend.{explained, mended_at};

use codeword::Fault;
use faults::fault;
use rspc::{Parity, place_of, rows_of};

// The codeword in column k.
fn word_in(parity: Parity, k: u8) -> u8
    ensures { result ≡ in_column parity k }
{
    match parity {
        Parity::P => 43 * (k % 2) + k / 2,
        Parity::Q => 26 * (k % 2) + k / 2,
    }
}

// The codeword in column k, whose first sums these are, is mended where one wrong byte explains them; the answer is false where none does.
// A byte behind the end stays out.
pub fn mend(s: &mut [u8], parity: Parity, k: u8, sums: [u8; 2]) -> bool
    ensures { (result ≡ explained (fault sums (rows_of parity)))
        × (s.new ≡ mended_at parity s.old (in_column parity k) (fault sums (rows_of parity))) }
{
    match fault(sums, rows_of(parity)) {
        Fault::Clean => true,
        Fault::At(i, e) => {
            let at = place_of(parity, word_in(parity, k), i as u8);
            if at < s.len() {
                s[at] ^= e;
            }
            true
        }
        Fault::Lost => false,
    }
}
