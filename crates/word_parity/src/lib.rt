// Parity of two bytes (Annex A): those that make a codeword of the word behind which they stand. They are found from its sums.
#![tactic(auto)]

ghost use Rattle.std.specs.Prelude.{[], ◌∷◌, ◌++◌, get_or};
ghost use Rattle.field.specs.Field.{power, mul};
ghost use Rattle.codeword.specs.Parity.{Parity, WithSums};

use products::{product, times_power};
use word_sums::sums;

// The inverse of 1 + α.
const OVER_FIRST: u8 = 244;

// The two bytes of parity behind a word with these first sums.
pub fn parity_from_sums(sums: [u8; 2]) -> [u8; 2]
    ensures { WithSums (get_or sums 0 0 ∷ mul (get_or sums 1 0) (power 2) ∷ []) result }
{
    let [s0, s1] = sums;
    let p = product(s0 ^ times_power(s1, 2), OVER_FIRST);
    [p, s0 ^ p]
}

// The two bytes of parity behind a word: P or Q.
pub fn parity_of_two(w: &[u8]) -> [u8; 2]
    ensures { Parity 2 result (w.now ++ result) }
{
    parity_from_sums(sums(w))
}
