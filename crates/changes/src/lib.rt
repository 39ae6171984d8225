// How many bytes changed.
#![tactic(auto)]

ghost use Rattle.std.specs.Prelude.{◌≡◌};
ghost use Rattle.codeword.specs.Code.{changes};

// In how many places two Sectors differ; where one is longer, the rest of it does not count.
pub fn count_changes(a: &[u8], b: &[u8]) -> usize
    ensures { result ≡ changes a.now b.now }
{
    let mut count: usize = 0;
    // By index, so that `count_without_sync` is wrong by one number; `filter` and `count` would not be done in vectors.
    for i in 0..a.len().min(b.len()) {
        count += usize::from(a[i] != b[i]);
    }
    count
}
