// Two slices laid into a third, one behind the other.
#![tactic(auto)]

ghost use Rattle.laying.specs.Both.{Lays};

use outcome::copy;

// The slices `p` and `q` go into `s` from byte `at` on and the answer is true. Where they don't fit nothing changes and the answer is false.
pub fn lay(s: &mut [u8], at: usize, p: &[u8], q: &[u8]) -> bool
    ensures { Lays at p.now q.now s.old result s.new }
{
    if s.len() < at {
        return false;
    }
    if s.len() - at < p.len() {
        return false;
    }
    let middle = at + p.len();
    if s.len() - middle < q.len() {
        return false;
    }
    let end = middle + q.len();
    copy(p, &mut s[at..middle]);
    copy(q, &mut s[middle..end]);
    true
}
