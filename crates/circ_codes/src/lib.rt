// The words of the CIRC reader (Annex C.7; document 02, §7): what C1 and C2 hand on. A word has its marks behind it.
#![tactic(auto)]

ghost use Rattle.std.specs.Prelude.{◌≡◌, ◌+◌, ◌-◌, ◌≤◌, ◌++◌, length, take, drop, replicate};
ghost use Rattle.circ.specs.Codes.{treated, doubted};
ghost use Rattle.circ.specs.Marked.{pass_c1, pass_c2};

use circ_words::treat;

// One or two marked bytes of a C1 word are filled.
const MOST_C1: usize = 2;

// One to four of a C2 word.
const MOST_C2: usize = 4;

// A word of N bytes and as many marks behind them in; its first 28 bytes on, and behind them its mark, wherever there is room.
fn pass<const N: usize, const OUT: usize>(rows: &[u8], most: usize) -> [u8; OUT]
    requires long { length rows.now ≡ N + N }
    requires word { (28 ≤ N) × (N ≤ 255) }
    requires room { 28 ≤ OUT }
    requires few { most ≤ 4 }
    ensures { result ≡ take 28 (treated most (drop N rows.now) (take N rows.now)) ++ replicate (OUT - 28) (doubted most (drop N rows.now) (take N rows.now)) }
{
    let mut word = [0u8; N];
    word.copy_from_slice(&rows[..N]);
    let mark = treat(&rows[N..], &mut word, most);
    let mut r = [mark; OUT];
    r[..28].copy_from_slice(&word[..28]);
    r
}

// C1: 32 bytes and their marks in; 28 bytes on, and behind them the word's mark for each.
pub fn pass_c1(rows: [u8; 64]) -> [u8; 56]
    ensures { result ≡ pass_c1 rows }
{
    pass::<32, 56>(&rows, MOST_C1)
}

// C2: 28 bytes and their marks in; 28 bytes on, and behind them the word's doubt, twice.
pub fn pass_c2(rows: [u8; 56]) -> [u8; 30]
    ensures { result ≡ pass_c2 rows }
{
    pass::<28, 30>(&rows, MOST_C2)
}
