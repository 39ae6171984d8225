// Words of which some bytes are lost, at known places (document 02, §7): the codeword of four sums that agrees with all the others is found.
#![tactic(auto)]

ghost use Rattle.std.specs.Prelude.{◌≡◌, cond, length};
ghost use Rattle.codeword.specs.Nearest.{is_codeword};
ghost use Rattle.erasures.specs.Errors.{filling};
ghost use Rattle.filling.specs.Fill.{Fills};

use generator::is_codeword;
use lost_errors::add_errors;
use mark_counts::count_marked;
use word_sums::sums;

// The longest word with which only one codeword can agree: below α^255 no two powers of α are equal.
// It stands in each of three crates, whose wrong program turns it there.
const LONGEST: usize = 255;

// Four sums tell up to four lost bytes.
const MOST: usize = 4;

// The errors are taken out of the word; where that makes no codeword they are put back.
fn fill_word(marks: &[u8], word: &mut [u8]) -> bool
    requires { length marks.now ≡ length word.old }
    ensures { (result ≡ is_codeword 4 (filling marks.now word.old))
        × (word.new ≡ cond result (filling marks.now word.old) word.old) }
{
    let s = sums::<4>(word);
    add_errors(marks, s, word);
    if is_codeword(word) {
        return true;
    }
    add_errors(marks, s, word);
    false
}

// The word becomes the codeword that agrees with all its unmarked bytes, and the answer is true. Where there is none it stays as it is, and the answer
// is false; so too where the marks are not as many as the bytes, there are more than 255 bytes, or more than four are marked.
pub fn fill(marks: &[u8], word: &mut [u8]) -> bool
    ensures { Fills marks.now word.old word.new result }
{
    if marks.len() != word.len() {
        return false;
    }
    if LONGEST < word.len() {
        return false;
    }
    if MOST < count_marked(marks) {
        return false;
    }
    fill_word(marks, word)
}
