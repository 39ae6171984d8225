// The rules of Mode 01 that no parity settles (clause 14): mode, address, EDC and Intermediate field.
#![tactic(auto)]

ghost use Rattle.mode01_rules.specs.Rules.{Tests};

use address::HeaderTime;

// Whether they all hold; of other than 2,352 bytes they do not. A test at a time: as one chain of `&&` the proof of it did not close.
pub fn rules_right(s: &[u8]) -> bool
    ensures { Tests s.now result }
{
    if s.len() != 2352 {
        return false;
    }
    if s[15] != 1 {
        return false;
    }
    let time = HeaderTime::new(s[12], s[13], s[14]);
    if !time.in_range() {
        return false;
    }
    if !edc_division::holds(&s[..2068]) {
        return false;
    }
    sector::intermediate_right(s)
}
