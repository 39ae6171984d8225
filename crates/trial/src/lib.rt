// What is tried of the bytes that P and Q protect: with Sync set and Q parity worked out afresh they may be a correct Sector.
#![tactic(auto)]

ghost use Rattle.trial.specs.Freshen.{Freshen};

// Sync is set, the Q parity is worked out afresh and the answer is true. Where there are not 2,352 bytes nothing changes and the answer is
// false.
pub fn freshen(s: &mut [u8]) -> bool
    ensures { Freshen s.old result s.new }
{
    if s.len() != 2352 {
        return false;
    }
    let sync = sector::sync_field();
    outcome::copy(&sync, &mut s[..12]);
    parities::put_q(s);
    true
}
