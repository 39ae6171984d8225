// What salvage (document 02, §10) does in turn: a pass over the codewords of one parity, and a trial of what it left.
#![tactic(auto)]

ghost use Rattle.salvage_passes.specs.Passes.{Passes};
ghost use Rattle.salvage_passes.specs.Tries.{Decides, Tries};

// Whether a Sector is a correct one of Mode 01.
fn is_correct(s: &[u8]) -> bool
    ensures { Decides s.now result }
{
    let Ok(passed) = judge::judge(s) else {
        return false;
    };
    passed.mode == 1
}

// The trial: Sync set, Q parity worked out afresh, and whether that is correct. Other than 2,352 bytes stay as they are, and are not.
pub fn tries(t: &mut [u8]) -> bool
    ensures { Tries t.old result t.new }
{
    trial::freshen(t);
    is_correct(t)
}

// Pass k: over P where it is odd, over Q where it is even. Other than 2,352 bytes stay as they are.
pub fn pass(s: &mut [u8], k: u8)
    ensures { Passes k s.old s.new }
{
    if k % 2 == 1 {
        mending::p_pass(s);
        return;
    }
    mending::q_pass(s);
}
