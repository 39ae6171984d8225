// The only Sector that repair can seek for what came in (document 01, "P and Q").
#![tactic(auto)]

ghost use Rattle.candidates.specs.Candidate.{FoundFor};

// `s` becomes what came in with each P codeword mended, Sync put right and Q worked out afresh, and the answer is whether each P codeword had
// one near. Where 2,352 bytes did not come in nothing changes and the answer is false. No `Option` of a Sector: its clause says what `s` is
// where the answer is false, too.
pub fn candidate(received: &[u8], s: &mut [u8; 2352]) -> bool
    ensures { FoundFor received.now s.old result s.new }
{
    if received.len() != 2352 {
        return false;
    }
    outcome::copy(received, s);
    let near = mending::p_pass(s);
    trial::freshen(s);
    near
}
