// Division of a word by the generator of C1 and C2 (Annex C.7), whose roots are 1, α, α² and α³: what is left, four bytes, has the word's sums. Two look-ups a byte
// give it, so that a codeword is known and parity is found without a product.
#![tactic(auto)]

ghost use Rattle.std.specs.Prelude.{◌≡◌, ◌++◌, length, take, drop};
ghost use Rattle.codeword.specs.Nearest.{is_codeword};
ghost use Rattle.codeword.specs.Parity.{Parity};
ghost use Rattle.generator_rows.specs.Register.{Left};
ghost use Rattle.generator_rows.specs.Rows.{rows, upward, downward};

use four_bytes::bytes_of;
use generator_steps::{look_up, take_byte};
use generator_tables::{downward, upward};

// Four bytes a turn, and the last ones one by one. The EDC's division goes the same way; one function for both would need a trait with the register's invariant and its laws,
// longer than the two together.
fn divide(t: &[u32; 128], w: &[u8]) -> u32
    requires { t.now ≡ rows upward }
    ensures { Left w.now result }
{
    let (words, last) = w.as_chunks::<4>();
    let mut r: u32 = 0;
    for word in words {
        r = u32::from_le_bytes(*word) ^ look_up(t, r);
    }
    for byte in last {
        r = take_byte(t, r, *byte);
    }
    r
}

// Whether the word is a codeword: nothing is left of it.
pub fn is_codeword(w: &[u8]) -> bool
    ensures { result ≡ is_codeword 4 w.now }
{
    let t = upward();
    divide(&t, w) == 0
}

// The four bytes of parity behind a word: C1. They are what is left of it with four zeros behind it.
pub fn parity_at_end(w: &[u8]) -> [u8; 4]
    ensures { Parity 4 result (w.now ++ result) }
{
    let t = upward();
    bytes_of(look_up(&t, divide(&t, w)))
}

// What is left of a word, moved down by the twelve bytes that come after the parity, is to be added to what stands there.
fn parity_amid(up: &[u32; 128], down: &[u32; 128], w: &[u8]) -> [u8; 4]
    requires { (up.now ≡ rows upward) × (down.now ≡ rows downward) × (length w.now ≡ 28) }
    ensures { Parity 4 result (take 12 w.now ++ (result ++ drop 16 w.now)) }
{
    let q = bytes_of(look_up(down, divide(up, w)));
    [w[12] ^ q[0], w[13] ^ q[1], w[14] ^ q[2], w[15] ^ q[3]]
}

// The four bytes of parity at 12 to 15 of 28, whatever stands there: C2.
pub fn parity_at_12(w: [u8; 28]) -> [u8; 4]
    ensures { Parity 4 result (take 12 w ++ (result ++ drop 16 w)) }
{
    let up = upward();
    let down = downward();
    parity_amid(&up, &down, &w)
}
