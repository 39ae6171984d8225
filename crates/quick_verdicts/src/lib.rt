// The verdict on a word of C1 or C2 (Annex C.7), quick where the word is clean: only one that isn't needs its sums.
#![tactic(auto)]

ghost use Rattle.std.specs.Prelude.{◌≡◌};
ghost use Rattle.codeword.specs.Nearest.{verdict};

use codeword::Verdict;
use generator::is_codeword;

// The longest word that the codes can mend.
// It stands in each of three crates, whose wrong program turns it there.
const LONGEST: usize = 255;

// What to do with a word of C1 or C2.
pub fn verdict_of_four(w: &[u8]) -> Verdict
    ensures { result ≡ verdict 4 w.now }
{
    if LONGEST < w.len() {
        return Verdict::Lost;
    }
    if is_codeword(w) {
        return Verdict::Clean;
    }
    verdicts::verdict_of_four(w)
}
