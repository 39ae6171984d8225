// The CRC of the q-channel (clause 22.3.6): what is left of bits by the generating polynomial, inverted.
#![tactic(auto)]

ghost use Rattle.std.specs.Prelude.{◌≡◌, ◌<◌};
ghost use Rattle.bits.specs.Bits.{bits_of, unpack, pack};
ghost use Rattle.crc.specs.Crc.{crc};
ghost use Rattle.crc.specs.Inner.Register.{step, steps};

// The generating polynomial without x^16, the coefficient of x^15 the most significant bit (22.3.6).
const LOWER: u16 = 0x1021;

// One line of the division, with the remainder's 16 coefficients as a number.
#[tactic(auto, unfolding(crate::specs::Inner::Register::step))]
fn bring(r: u16, c: u8) -> u16
    requires { c < 2 }
    ensures { result ≡ step r c }
{
    (r % 32768 * 2 + (c as u16)) ^ (r / 32768 * LOWER)
}

// Eight lines, for the bits of a byte, the most significant first.
fn bring_byte(r: u16, b: u8) -> u16
    ensures { result ≡ steps r (bits_of 8 b) }
{
    let mut r = r;
    for j in (0..8u32).rev() {
        r = bring(r, (b >> j) % 2);
    }
    r
}

fn divide(bytes: &[u8]) -> u16
    ensures { result ≡ steps 0 (unpack bytes.now) }
{
    bytes.iter().fold(0, |r, b| bring_byte(r, *b))
}

// The two bytes of the CRC field for the bytes before it.
pub fn parity(bytes: &[u8]) -> [u8; 2]
    ensures { result ≡ pack 2 (crc (unpack bytes.now)) }
{
    let r = bring_byte(bring_byte(divide(bytes), 0), 0);
    (!r).to_be_bytes()
}
