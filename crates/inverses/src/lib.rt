// Inverses of bytes in the field of 256 elements (Annex A.3, Annex C.7). No branch depends on the data.
#![tactic(auto)]

ghost use Rattle.field.specs.Inverse.{InverseOf};

use products::product;

// The inverse of a; 0, which has none, gives 0. It is a^254: seven turns make the exponents 1, 3, 7, .., 127.
pub fn inverse(a: u8) -> u8
    ensures { InverseOf a result }
{
    let mut r: u8 = 1;
    for _ in 0..7u8 {
        r = product(product(r, r), a);
    }
    product(r, r)
}
