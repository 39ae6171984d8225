// Times α and products of bytes in the field of 256 elements (Annex A.3, Annex C.7). No branch depends on the data.
#![tactic(auto)]

ghost use Rattle.std.specs.Prelude.{◌≡◌};
ghost use Rattle.field.specs.Field.{times_alpha, power, mul};

// α, α² and α³.
pub const ALPHA: u8 = 2;

pub const ALPHA_2: u8 = 4;

pub const ALPHA_3: u8 = 8;

// The polynomial without its highest power.
const POLYNOMIAL: u8 = 29;

// α times x: bits 0 to 6 move up, and bit 7 brings in the polynomial.
pub fn times_alpha(x: u8) -> u8
    ensures { result ≡ times_alpha x }
{
    (x % 128 * 2) ^ (x / 128 * POLYNOMIAL)
}

// x times α^n.
pub fn times_power(x: u8, n: usize) -> u8
    ensures { result ≡ mul x (power n) }
{
    let mut product = x;
    for _ in 0..n {
        product = times_alpha(product);
    }
    product
}

// The product of a and b: for each bit of b that is set, a times that power of α.
pub fn product(a: u8, b: u8) -> u8
    ensures { result ≡ mul a b }
{
    let mut sum: u8 = 0;
    let mut shifted = a;
    let mut rest = b;
    for _ in 0..8u8 {
        sum ^= rest % 2 * shifted;
        shifted = times_alpha(shifted);
        rest /= 2;
    }
    sum
}
