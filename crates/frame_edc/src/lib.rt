// The EDC of a Data Frame (ISO/IEC 16449, 16.4): the four bytes that make it divisible by the check polynomial.
#![tactic(auto)]

mod table;

ghost use Rattle.std.specs.Prelude.{◌≡◌};
ghost use Rattle.bits.specs.Bits.{number};
ghost use Rattle.division.specs.Polynomial.{is_zero};
ghost use Rattle.frame_edc.specs.FrameEdc.{remainder, edc};
ghost use Rattle.frame_edc.specs.Inner.Rows.{rows, taken};

// A byte is brought down beside the register: eight lines of the division by one entry.
fn take_byte(t: &[u32; 256], r: u32, b: u8) -> u32
    requires { t.now ≡ rows }
    ensures { result ≡ taken r b }
{
    let low = r % 16777216 * 256 + (b as u32);
    low ^ t[(r / 16777216) as usize]
}

// The remainder of bytes, its highest power in the highest bit.
fn divide(t: &[u32; 256], bytes: &[u8]) -> u32
    requires { t.now ≡ rows }
    ensures { result ≡ number 0 (remainder bytes.now) }
{
    let mut r: u32 = 0;
    for b in bytes {
        r = take_byte(t, r, *b);
    }
    r
}

// The four bytes of the EDC field for the bytes before it.
pub fn parity(bytes: &[u8]) -> [u8; 4]
    ensures { result ≡ edc bytes.now }
{
    let t = table::table();
    let one = take_byte(&t, divide(&t, bytes), 0);
    let two = take_byte(&t, one, 0);
    let three = take_byte(&t, two, 0);
    take_byte(&t, three, 0).to_be_bytes()
}

// Whether the bytes, with the EDC field the last of them, are divisible.
pub fn holds(bytes: &[u8]) -> bool
    ensures { result ≡ is_zero (remainder bytes.now) }
{
    let t = table::table();
    divide(&t, bytes) == 0
}
