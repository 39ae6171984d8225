// What the lost bytes of a word are wrong by (document 02, §7), from its four sums.
#![tactic(auto)]

ghost use Rattle.std.specs.Prelude.{◌≡◌, cond, ◌<◌, eqb, length};
ghost use Rattle.xor.specs.Added.{added};
ghost use Rattle.erasures.specs.Errors.{error_at, error_of, errors};

use inverses::inverse;
use products::{product, times_alpha};
use twists::{power_of, twisted_by};

// What the lost byte at p is wrong by: the sums are twisted by the weight of each other lost byte, from the end on.
fn error_at(marks: &[u8], s: [u8; 4], p: usize) -> u8
    requires { p < length marks.now }
    ensures { result ≡ error_at marks.now s p }
{
    let y = power_of(marks.len() - 1 - p);
    let mut t = s;
    let mut f: u8 = 1;
    let mut x: u8 = 1;
    for i in (0..marks.len()).rev() {
        let w = x;
        x = times_alpha(w);
        if i != p && marks[i] != 0 {
            t = twisted_by(t, w);
            f = product(f, y ^ w);
        }
    }
    product(t[0], inverse(f))
}

// What the byte at p is wrong by, which is 0 where it isn't lost.
fn error_of(marks: &[u8], s: [u8; 4], p: usize) -> u8
    requires { p < length marks.now }
    ensures { result ≡ error_of marks.now s p }
{
    if marks[p] == 0 {
        return 0;
    }
    error_at(marks, s, p)
}

// The errors are added to the word; added twice they leave it as it was. Where the marks are not as many as the bytes nothing changes.
pub fn add_errors(marks: &[u8], s: [u8; 4], word: &mut [u8])
    ensures { word.new
        ≡ cond (eqb (length marks.now) (length word.old)) (added word.old (errors marks.now s)) word.old }
{
    if marks.len() != word.len() {
        return;
    }
    for i in 0..marks.len() {
        word[i] ^= error_of(marks, s, i);
    }
}
