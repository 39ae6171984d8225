// Codewords: the verdict on a word, parity, and the filling of lost bytes.
ghost use Rattle.std.specs.Prelude.{◌≡◌, ◌∷◌, ◌++◌, take, drop};
ghost use Rattle.codeword.specs.Nearest.{verdict};
ghost use Rattle.codeword.specs.Parity.{Parity};
ghost use Rattle.filling.specs.Fill.{Fills};
ghost use Rattle.code_exports.specs.Verdicts.{told_of};

use codeword::Verdict;
use told::tell;

fn tell_verdict(v: Verdict, change: &mut [u64; 2]) -> u8
    ensures { result ∷ change.new ≡ told_of v }
{
    match v {
        Verdict::Clean => tell(0, [0, 0], change),
        Verdict::Change(i, b) => tell(1, [i as u64, b as u64], change),
        Verdict::Lost => tell(2, [0, 0], change),
    }
}

// A word of P or Q.
#[unsafe(no_mangle)]
pub extern "C" fn road_verdict_of_two(w: &[u8], change: &mut [u64; 2]) -> u8
    ensures { result ∷ change.new ≡ told_of (verdict 2 w.now) }
{
    tell_verdict(verdicts::verdict_of_two(w), change)
}

// A word of C1 or C2.
#[unsafe(no_mangle)]
pub extern "C" fn road_verdict_of_four(w: &[u8], change: &mut [u64; 2]) -> u8
    ensures { result ∷ change.new ≡ told_of (verdict 4 w.now) }
{
    tell_verdict(quick_verdicts::verdict_of_four(w), change)
}

// The two bytes of parity behind a word.
#[unsafe(no_mangle)]
pub extern "C" fn road_parity_of_two(w: &[u8], parity: &mut [u8; 2])
    ensures { Parity 2 parity.new (w.now ++ parity.new) }
{
    *parity = word_parity::parity_of_two(w);
}

// The four bytes of parity behind a word: C1.
#[unsafe(no_mangle)]
pub extern "C" fn road_parity_at_end(w: &[u8], parity: &mut [u8; 4])
    ensures { Parity 4 parity.new (w.now ++ parity.new) }
{
    *parity = generator::parity_at_end(w);
}

// The four bytes of parity at 12 to 15 of 28: C2.
#[unsafe(no_mangle)]
pub extern "C" fn road_parity_at_12(w: &[u8; 28], parity: &mut [u8; 4])
    ensures { Parity 4 parity.new (take 12 w.now ++ (parity.new ++ drop 16 w.now)) }
{
    *parity = generator::parity_at_12(*w);
}

// The marked bytes of a word of four sums are filled, where a codeword agrees with the others.
#[unsafe(no_mangle)]
pub extern "C" fn road_fill(marks: &[u8], word: &mut [u8]) -> bool
    ensures { Fills marks.now word.old word.new result }
{
    filling::fill(marks, word)
}
