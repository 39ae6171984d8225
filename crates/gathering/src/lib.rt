// The Q codewords of a Sector (Annex A) gathered into rows, so that they stand side by side as those of P do.
#![tactic(auto)]

ghost use Rattle.std.specs.Prelude.{◌≡◌, ◌+◌, ◌%◌, ◌<◌, length};
ghost use Rattle.gathering.specs.Rows.{q_rows, Gathered};
ghost use Rattle.gathering.specs.Inner.Row.{q_row};

// The words of P and Q before the Q parity.
const WORDS: usize = 1118;

// The word 43 further on, with the first after the last.
fn next_word(word: usize) -> usize
    requires { word < 1118 }
    ensures { result ≡ (word + 43) % 1118 }
{
    let next = word + 43;
    if next < WORDS {
        return next;
    }
    next - WORDS
}

// Row m: codeword d begins with word 43d, and from there byte m is 44m words further on.
fn gather_row(s: &[u8], m: usize, row: &mut [u8])
    requires { (length s.now ≡ 2352) × (m < 43) × (length row.old ≡ 52) }
    ensures { row.new ≡ q_row s.now m }
{
    let mut word = 44 * m % WORDS;
    for d in 0..26 {
        row[2 * d] = s[2 * word + 12];
        row[2 * d + 1] = s[2 * word + 13];
        word = next_word(word);
    }
}

// All 43 rows.
fn gather_all(s: &[u8], rows: &mut [u8])
    requires { (length s.now ≡ 2352) × (length rows.old ≡ 2236) }
    ensures { rows.new ≡ q_rows s.now }
{
    for m in 0..43 {
        let at = 52 * m;
        gather_row(s, m, &mut rows[at..at + 52]);
    }
}

// `rows` becomes the 43 rows of 52 bytes whose columns are the Q codewords without their parity, and the answer is true. Where there
// are not 2,352 bytes or there is not room for 2,236 nothing changes and the answer is false.
pub fn gather(s: &[u8], rows: &mut [u8]) -> bool
    ensures { Gathered s.now rows.old result rows.new }
{
    if s.len() != 2352 {
        return false;
    }
    if rows.len() != 2236 {
        return false;
    }
    gather_all(s, rows);
    true
}
