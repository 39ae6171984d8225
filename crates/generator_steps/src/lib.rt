// What a register becomes by the entries of a table (Annex C.7): its four bytes looked up, or a byte taken in behind it.
#![tactic(auto)]

ghost use Rattle.std.specs.Prelude.{◌≡◌, ◌<◌, ◌≤◌};
ghost use Rattle.generator_rows.specs.Register.{entry_of, entries, with_byte};

// The entries of a byte's two halves in a table's block, added.
fn entry(t: &[u32; 128], block: usize, b: u32) -> u32
    requires { (block ≤ 96) × (b < 256) }
    ensures { result ≡ entry_of t.now block b }
{
    t[block + (b % 16) as usize] ^ t[block + 16 + (b / 16) as usize]
}

// The entries of the register's four bytes, added. `edc_steps` does the same by one look-up a byte and not two: a trait for both would say more than the two functions.
pub fn look_up(t: &[u32; 128], r: u32) -> u32
    ensures { result ≡ entries t.now r }
{
    let a = entry(t, 96, r % 256);
    let b = entry(t, 64, r / 256 % 256);
    let c = entry(t, 32, r / 65536 % 256);
    let d = entry(t, 0, r / 16777216 % 256);
    a ^ b ^ c ^ d
}

// A byte comes in behind the register, whose first byte goes out and leaves its entry.
pub fn take_byte(t: &[u32; 128], r: u32, b: u8) -> u32
    ensures { result ≡ with_byte t.now r b }
{
    let next = r / 256 + (b as u32) * 16777216;
    next ^ entry(t, 0, r % 256)
}
