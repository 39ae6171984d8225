// At which edge of a capture the first Sync Header begins (document 02, §5).
#![tactic(auto)]

ghost use Rattle.std.specs.Prelude.{◌≡◌, ◌+◌, ◌<◌, length};
ghost use Rattle.legal_runs.specs.EdgeBits.{runs};
ghost use Rattle.header_search.specs.HeaderEdge.{begins, stands, header_edge};

// Whether two runs of 11 bits follow edge k.
fn begins_at(capture: &[u8], k: usize) -> bool
    requires { k < length capture.now }
    ensures { result ≡ begins (runs capture.now) k }
{
    legal_runs::bits_at(capture, k) == 11 && legal_runs::bits_at(capture, k + 1) == 11
}

// Whether a Sync Header begins at edge k: a third run behind the two shows its last ZERO.
pub fn stands_at(capture: &[u8], k: usize) -> bool
    ensures { result ≡ stands (runs capture.now) k }
{
    k < (capture.len() / 2).saturating_sub(3) && begins_at(capture, k)
}

// The first edge from `from` on at which a Sync Header begins, or where the search ends.
pub fn header_edge(capture: &[u8], from: usize) -> usize
    ensures { result ≡ header_edge (runs capture.now) from }
{
    let end = (capture.len() / 2).saturating_sub(3);
    for k in from..end {
        if begins_at(capture, k) {
            return k;
        }
    }
    from.max(end)
}
