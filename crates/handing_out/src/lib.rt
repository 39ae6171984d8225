// A Sector handed out for what came in.
#![tactic(auto)]

ghost use Rattle.handing_out.specs.HandedOut.{HandsOut};

// The Sector `s` in the buffer `out`, where that has room for it and for nothing more; the answer is the count of its bytes that changed.
pub fn hand_out(received: &[u8], s: &[u8], out: &mut [u8]) -> usize
    ensures { HandsOut received.now s.now out.old result out.new }
{
    outcome::copy(s, out);
    changes::count_changes(received, s)
}
