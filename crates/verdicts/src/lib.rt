// The verdict on a word of a code (Annex A, Annex C.7): what to do with it, by the fault that its sums tell.
#![tactic(auto)]

ghost use Rattle.std.specs.Prelude.{◌≡◌, ℕ, ◌<◌, ◌^◌, length};
ghost use Rattle.codeword.specs.Nearest.{verdict};
ghost use Rattle.codeword.specs.Fault.{cure};

use codeword::{Fault, Verdict};
use faults::fault;
use word_sums::sums;

// What to do with a word that has this fault.
fn cured(w: &[u8], f: Fault) -> Verdict
    requires { (i e : ℕ) → f ≡ Fault.At i e → i < length w.now }
    ensures { result ≡ cure w.now f }
{
    match f {
        Fault::Clean => Verdict::Clean,
        Fault::At(i, e) => Verdict::Change(i, w[i] ^ e),
        Fault::Lost => Verdict::Lost,
    }
}

// What to do with a word of a code of N sums, which have to fit into memory.
fn verdict<const N: usize>(w: &[u8]) -> Verdict
    requires { N < 2 ^ 63 }
    ensures { result ≡ verdict N w.now }
{
    cured(w, fault(sums::<N>(w), w.len()))
}

// What to do with a word of P or Q. No public function requires anything, so there is one for each number of sums.
pub fn verdict_of_two(w: &[u8]) -> Verdict
    ensures { result ≡ verdict 2 w.now }
{
    verdict::<2>(w)
}

// What to do with a word of C1 or C2.
pub fn verdict_of_four(w: &[u8]) -> Verdict
    ensures { result ≡ verdict 4 w.now }
{
    verdict::<4>(w)
}
