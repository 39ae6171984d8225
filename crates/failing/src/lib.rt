// The codewords of P and Q (Annex A) in a Sector: which is the first that fails.
#![tactic(auto)]

ghost use Rattle.std.specs.Prelude.{◌≡◌, ◌<◌, get_or};
ghost use Rattle.rspc.specs.Either.{words_of};
ghost use Rattle.failing.specs.Failing.{failing, first_failing};

use rspc::{Parity, place_of, rows_of, words_of};

// Byte i, and 0 past the end, as codewords are defined.
fn byte_at(s: &[u8], i: usize) -> u8
    ensures { result ≡ get_or s.now i 0 }
{
    if i < s.len() { s[i] } else { 0 }
}

// Whether codeword n fails: its two sums are not both 0.
fn fails(parity: Parity, s: &[u8], n: usize) -> bool
    requires { n < words_of parity }
    ensures { result ≡ failing parity s.now n }
{
    let mut s0: u8 = 0;
    let mut s1: u8 = 0;
    for m in 0..rows_of(parity) {
        let b = byte_at(s, place_of(parity, n as u8, m as u8));
        s0 ^= b;
        s1 = products::times_alpha(s1) ^ b;
    }
    s0 != 0 || s1 != 0
}

// The first codeword that fails, LSB ones first and MSB ones counted on.
pub fn first_failing(parity: Parity, s: &[u8]) -> Option<usize>
    ensures { result ≡ first_failing parity s.now }
{
    for n in 0..words_of(parity) {
        if fails(parity, s, n) {
            return Some(n);
        }
    }
    None
}
