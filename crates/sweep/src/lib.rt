// The sums of many words that stand side by side, in one pass over contiguous rows, so that the compiler can vectorise it.
#![tactic(auto)]

ghost use Rattle.std.specs.Prelude.{◌≡◌, ◌<◌, length};
ghost use Rattle.sweep.specs.Columns.{Swept, all_sums};
ghost use Rattle.sweep.specs.Inner.Rise.{risen};

use outcome::clear;
use products::times_alpha;

// Horner's step for each column: its sum so far times α, plus the row's byte.
fn raise(to: &mut [u8], row: &[u8])
    requires { length to.old ≡ length row.now }
    ensures { to.new ≡ risen to.old row.now }
{
    for (k, byte) in row.iter().enumerate() {
        let so_far = to[k];
        let raised = times_alpha(so_far);
        to[k] = raised ^ *byte;
    }
}

// The pass over the rows.
fn pass(rows: &[u8], s0: &mut [u8], s1: &mut [u8])
    requires { (length s0.old ≡ length s1.old) × (0 < length s0.old) }
    ensures { (s0.new ≡ all_sums 0 (length s0.old) rows.now)
        × (s1.new ≡ all_sums 1 (length s0.old) rows.now) }
{
    clear(s0);
    clear(s1);
    for row in rows.chunks_exact(s0.len()) {
        xor::add(s0, row);
        raise(s1, row);
    }
}

// `s0` and `s1`, of one length w, become the sums with j = 0 and 1 of the w columns of `rows`, rows of w bytes each; what is left
// of `rows` after the last whole row does not count. Where their lengths differ or are 0 nothing changes and the answer is false.
pub fn sums(rows: &[u8], s0: &mut [u8], s1: &mut [u8]) -> bool
    ensures { Swept rows.now s0.old s1.old result s0.new s1.new }
{
    if s0.len() != s1.len() {
        return false;
    }
    if s0.len() == 0 {
        return false;
    }
    pass(rows, s0, s1);
    true
}
