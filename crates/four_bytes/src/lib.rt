// Four bytes as one number, the first the lowest: how a register holds them.
#![tactic(auto)]

ghost use Rattle.std.specs.Prelude.{◌≡◌};
ghost use Rattle.four_bytes.specs.FourBytes.{four_of, number_at};

// The number of the four bytes from i on; where fewer are left it is 0.
pub fn number_at(bytes: &[u8], i: usize) -> u32
    ensures { result ≡ number_at bytes.now i }
{
    if bytes.len() < i || bytes.len() - i < 4 {
        return 0;
    }
    u32::from_le_bytes([bytes[i], bytes[i + 1], bytes[i + 2], bytes[i + 3]])
}

// The bytes of a number.
pub fn bytes_of(n: u32) -> [u8; 4]
    ensures { result ≡ four_of n }
{
    n.to_le_bytes()
}
