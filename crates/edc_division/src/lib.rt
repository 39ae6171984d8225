// The EDC (clause 14.3): the remainder of bytes by the check polynomial, and the four bytes that make it 0.
#![tactic(auto)]

ghost use Rattle.std.specs.Prelude.{◌≡◌};
ghost use Rattle.edc.specs.Bits.{bits, number_low_first};
ghost use Rattle.edc.specs.Edc.{remainder, edc, is_zero};
ghost use Rattle.edc.specs.Rows.{rows};

use edc_steps::{advance, take_byte};
use four_bytes::bytes_of;

// Four bytes a turn, and the last ones one by one.
fn divide(t: &[u32; 1024], bytes: &[u8]) -> u32
    requires { t.now ≡ rows }
    ensures { result ≡ number_low_first (remainder (bits bytes.now)) }
{
    let (words, last) = bytes.as_chunks::<4>();
    let mut r: u32 = 0;
    for word in words {
        r = u32::from_le_bytes(*word) ^ advance(t, r);
    }
    for byte in last {
        r = take_byte(t, r, *byte);
    }
    r
}

// The remainder's 32 coefficients as a number, that of the highest power in the lowest bit.
pub fn remainder(bytes: &[u8]) -> u32
    ensures { result ≡ number_low_first (remainder (bits bytes.now)) }
{
    let t = edc_table::rows();
    divide(&t, bytes)
}

// The four bytes of the EDC field for the bytes before it.
pub fn parity(bytes: &[u8]) -> [u8; 4]
    ensures { result ≡ edc bytes.now }
{
    let t = edc_table::rows();
    bytes_of(advance(&t, divide(&t, bytes)))
}

// Whether the bytes, with the EDC field the last of them, are divisible.
pub fn holds(bytes: &[u8]) -> bool
    ensures { result ≡ is_zero (remainder (bits bytes.now)) }
{
    remainder(bytes) == 0
}
