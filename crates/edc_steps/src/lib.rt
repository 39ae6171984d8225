// Steps of the register of the EDC (clause 14.3) by the entries of a table: 32 at once, or eight with a byte that comes in.
#![tactic(auto)]

ghost use Rattle.std.specs.Prelude.{◌≡◌};
ghost use Rattle.edc.specs.Register.{entries, with_byte};

// 32 steps of the register: one entry for each of its bytes.
pub fn advance(t: &[u32; 1024], r: u32) -> u32
    ensures { result ≡ entries t.now r }
{
    let a = t[(768 + r % 256) as usize];
    let b = t[(512 + r / 256 % 256) as usize];
    let c = t[(256 + r / 65536 % 256) as usize];
    let d = t[(r / 16777216) as usize];
    a ^ b ^ c ^ d
}

// A byte comes in above the register, and eight steps bring it down.
pub fn take_byte(t: &[u32; 1024], r: u32, b: u8) -> u32
    ensures { result ≡ with_byte t.now r b }
{
    let high = r / 256 + (b as u32) * 16777216;
    high ^ t[(r % 256) as usize]
}
