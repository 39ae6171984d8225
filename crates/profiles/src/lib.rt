// What the choice of Merging bits needs to know of a word of Annex D or of a SYNC, in a table of rows.
#![tactic(auto)]

ghost use Rattle.std.specs.Prelude.{◌≡◌};
ghost use Rattle.profiles.specs.Profiles.{profile_in, rows};
ghost use Rattle.words.specs.Symbols.{symbols};

mod table;

// A word as far as it matters to the choice: its ZEROs before the first ONE, the automaton's state after it if that ONE has not, or has, ten
// ZEROs before it, how many of its bits are at level +1 if the level before it is +1, whether it has an odd number of ONEs, and its bits.
#[derive(Clone, Copy, Debug, Default, PartialEq, Eq)]
pub struct Profile {
    pub lead: u8,
    pub plain: u8,
    pub ten: u8,
    pub odd: u8,
    pub ups: u64,
    pub word: u32,
}

// The profiles of all words and both SYNCs, in rows of eight bytes: 258 literals of a struct with six fields would be no plainer than rows of numbers. A
// loop fetches them once.
pub fn profile_rows() -> [u8; 2064]
    ensures { result ≡ rows symbols }
{
    table::ROWS
}

// What row k of any table says; beyond its end there are zeros.
#[tactic(auto, unfolding(crate::specs::Profiles::profile_in))]
pub fn profile_of(table: &[u8; 2064], k: usize) -> Profile
    ensures { result ≡ profile_in table.now k }
{
    if k >= 258 {
        return Profile::default();
    }
    let i = 8 * k;
    Profile {
        lead: table[i],
        plain: table[i + 1],
        ten: table[i + 2],
        odd: table[i + 4],
        ups: u64::from(table[i + 3]),
        word: u32::from(table[i + 5]) * 256 + u32::from(table[i + 6]),
    }
}
