// Fields of packed bits: some bits that follow each other in bytes, the most significant first, as a number.
#![tactic(auto)]

ghost use Rattle.std.specs.Prelude.{◌≡◌, ◌+◌, ◌*◌, ◌<◌, ◌^◌};
ghost use Rattle.fields.specs.Packed.{field_read};

// Three bytes as a number.
fn joined(a: u8, b: u8, c: u8) -> u64
    ensures { (result ≡ (a * 256 + b) * 256 + c) × (result < 16777216) }
{
    (u64::from(a) * 256 + u64::from(b)) * 256 + u64::from(c)
}

// The number of n bits from bit p on; 0 where they don't lie in three bytes that are there, the first of which has bit p.
pub fn field(packed: &[u8], p: usize, n: u32) -> u64
    ensures { (result ≡ field_read packed.now p n) × (result < 2 ^ n) }
{
    let i = p / 8;
    let j = (p % 8) as u32;
    if i + 2 >= packed.len() || n > 24 - j {
        return 0;
    }
    let x = joined(packed[i], packed[i + 1], packed[i + 2]);
    (x >> (24 - (j + n))) % (1u64 << n)
}
