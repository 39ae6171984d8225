// Parity of P and Q put into a Sector (Annex A). The codewords stand side by side in rows, so their sums are made in one sweep over
// the rows.
#![tactic(auto)]

ghost use Rattle.std.specs.Prelude.{◌≡◌, ◌<◌, length};
ghost use Rattle.parities.specs.Inner.ParityRows.{ParityRows};
ghost use Rattle.rspc.specs.Put.{PutP, PutQ};

use laying::lay;
use word_parity::parity_from_sums;

// The two rows that make a codeword of each column of `rows`: their sums come first, and each pair of sums becomes parity.
fn parity_rows(rows: &[u8], p0: &mut [u8], p1: &mut [u8])
    requires { (length p0.old ≡ length p1.old) × (0 < length p0.old) }
    ensures { ParityRows (length p0.old) rows.now p0.new p1.new }
{
    sweep::sums(rows, p0, p1);
    for k in 0..p0.len() {
        let [x, y] = parity_from_sums([p0[k], p1[k]]);
        p0[k] = x;
        p1[k] = y;
    }
}

// The P parity, bytes 2,076 to 2,247, is put right and the answer is true. Where there are not 2,352 bytes nothing changes and the
// answer is false.
pub fn put_p(s: &mut [u8]) -> bool
    ensures { PutP s.old result s.new }
{
    if s.len() != 2352 {
        return false;
    }
    let mut p0 = [0u8; 86];
    let mut p1 = [0u8; 86];
    parity_rows(&s[12..2076], &mut p0, &mut p1);
    lay(s, 2076, &p0, &p1);
    true
}

// The Q parity, bytes 2,248 to 2,351, is put right and the answer is true. Where there are not 2,352 bytes nothing changes and the
// answer is false. P's rows lie in the Sector and Q's are gathered first; what the two share are `parity_rows` and `lay`.
pub fn put_q(s: &mut [u8]) -> bool
    ensures { PutQ s.old result s.new }
{
    if s.len() != 2352 {
        return false;
    }
    let mut rows = [0u8; 2236];
    gathering::gather(s, &mut rows);
    let mut p0 = [0u8; 52];
    let mut p1 = [0u8; 52];
    parity_rows(&rows, &mut p0, &mut p1);
    lay(s, 2248, &p0, &p1);
    true
}
