// What becomes of a word of C1 or C2 in reading, by its marks (Annex C.7; document 02, §7).
#![tactic(auto)]

ghost use Rattle.std.specs.Prelude.{◌≡◌};
ghost use Rattle.circ.specs.Codes.{corrected, word_mark};
ghost use Rattle.circ_words.specs.Words.{HandsOn};

use codeword::Verdict;

// The word becomes the codeword near it, if there is one; the answer is the mark of a word that has none.
fn mend(word: &mut [u8]) -> u8
    ensures { (result ≡ word_mark word.old) × (word.new ≡ corrected word.old) }
{
    let verdict = quick_verdicts::verdict_of_four(word);
    match verdict {
        Verdict::Clean => 0,
        Verdict::Change(i, b) => {
            word[i] = b;
            0
        }
        Verdict::Lost => 1,
    }
}

// The word becomes what is handed on of it, where at most `most` marked bytes are filled; the answer is its mark. One that cannot be filled
// (`filling::fill`) stays as it is, marked.
pub fn treat(marks: &[u8], word: &mut [u8], most: usize) -> u8
    ensures { HandsOn most marks.now word.old word.new result }
{
    let n = mark_counts::count_marked(marks);
    if n == 0 {
        return mend(word);
    }
    if most < n {
        return 1;
    }
    if filling::fill(marks, word) {
        return 0;
    }
    1
}
