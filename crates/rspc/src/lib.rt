// RSPC (Annex A): the two parities of a Sector, and where their codewords stand.
#![tactic(auto)]

ghost use Rattle.std.specs.Prelude.{◌≡◌};
ghost use Rattle.rspc.specs.Either.{words_of, rows_of, place_of};

#[derive(Clone, Copy, Debug, PartialEq, Eq)]
pub enum Parity {
    P,
    Q,
}

// How many codewords a parity has.
pub fn words_of(parity: Parity) -> usize
    ensures { result ≡ words_of parity }
{
    match parity {
        Parity::P => 86,
        Parity::Q => 52,
    }
}

// How many bytes a codeword has.
pub fn rows_of(parity: Parity) -> usize
    ensures { result ≡ rows_of parity }
{
    match parity {
        Parity::P => 26,
        Parity::Q => 45,
    }
}

// Where byte m of codeword n stands in the Sector. Numbers of one byte keep the sums small whatever is asked.
pub fn place_of(parity: Parity, n: u8, m: u8) -> usize
    ensures { result ≡ place_of parity n m }
{
    let word = n as usize;
    let row = m as usize;
    match parity {
        Parity::P => 2 * (43 * row + word % 43) + 12 + word / 43,
        Parity::Q => {
            if row < 43 {
                return 2 * ((44 * row + 43 * (word % 26)) % 1118) + 12 + word / 26;
            }
            2 * (1118 + 26 * (row - 43) + word % 26) + 12 + word / 26
        }
    }
}
