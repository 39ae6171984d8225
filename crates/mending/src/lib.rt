// A pass over the codewords of one parity of a Sector (Annex A). They stand side by side in rows, those of Q once they are gathered, so
// their sums are made in one sweep over the rows.
#![tactic(auto)]

ghost use Rattle.std.specs.Prelude.{◌≡◌, length};
ghost use Rattle.rspc.specs.Pass.{Passed};
ghost use Rattle.rspc.specs.PassInPlace.{each_near, Pass};
ghost use Rattle.mending.specs.Inner.Mend.{SumsOf};

use rspc::Parity;
use word_mending::mend;

// Each codeword is mended by its sums, and the answer is whether that went with all of them.
fn mend_all(s: &mut [u8], parity: Parity, s0: &[u8], s1: &[u8]) -> bool
    requires { (length s.old ≡ 2352) × SumsOf parity s.old s0.now s1.now }
    ensures { (result ≡ each_near parity s.old) × Passed parity s.old s.new }
{
    let mut near = true;
    for k in 0..s0.len() {
        let mended = mend(s, parity, k as u8, [s0[k], s1[k]]);
        near = mended & near;
    }
    near
}

// Each P codeword that has a codeword near becomes that one, the others stay, and the answer is whether each had one. Where there are
// not 2,352 bytes nothing changes and the answer is false.
pub fn p_pass(s: &mut [u8]) -> bool
    ensures { Pass Parity.P s.old result s.new }
{
    if s.len() != 2352 {
        return false;
    }
    let mut s0 = [0u8; 86];
    let mut s1 = [0u8; 86];
    sweep::sums(&s[12..2248], &mut s0, &mut s1);
    mend_all(s, Parity::P, &s0, &s1)
}

// The same for the Q codewords, their parity included. P's rows lie in the Sector and Q's are gathered first; what the two share are
// `sweep::sums` and `mend_all`.
pub fn q_pass(s: &mut [u8]) -> bool
    ensures { Pass Parity.Q s.old result s.new }
{
    if s.len() != 2352 {
        return false;
    }
    let mut rows = [0u8; 2340];
    q_rows::lay_rows(s, &mut rows);
    let mut s0 = [0u8; 52];
    let mut s1 = [0u8; 52];
    sweep::sums(&rows, &mut s0, &mut s1);
    mend_all(s, Parity::Q, &s0, &s1)
}
