// A word's sums without one of its bytes (document 02, §7): twisted by the weight of a byte, they have it no more.
#![tactic(auto)]

ghost use Rattle.std.specs.Prelude.{◌≡◌};
ghost use Rattle.field.specs.Field.{power};
ghost use Rattle.erasures.specs.Errors.{step};

use products::{product, times_alpha};

// α^n.
pub fn power_of(n: usize) -> u8
    ensures { result ≡ power n }
{
    let mut x: u8 = 1;
    for _i in 0..n {
        x = times_alpha(x);
    }
    x
}

// The sums s twisted by x.
pub fn twisted_by(s: [u8; 4], x: u8) -> [u8; 4]
    ensures { result ≡ step x s }
{
    [
        s[1] ^ product(s[0], x),
        s[2] ^ product(s[1], x),
        s[3] ^ product(s[2], x),
        product(s[3], x),
    ]
}
