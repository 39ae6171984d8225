// What every entry answers, and the two things that every entry does with a lent buffer.
#![tactic(auto)]

ghost use Rattle.std.specs.Prelude.{◌≡◌, ℕ, cond, eqb, length, replicate};
ghost use Rattle.outcome.specs.Say.{cleared};

// Why an entry refuses: each refusal has document 01's number.
pub trait Refusal {
    ghost refusal_of: { Self → ℕ };

    fn number(self) -> u8
        ensures { result ≡ refusal_of self };
}

// Every byte of `out` becomes 0.
pub fn clear(out: &mut [u8])
    ensures { out.new ≡ replicate (length out.old) 0 }
{
    out.fill(0);
}

// What a refusal does to an outgoing buffer: zeros if its length is right, and nothing else.
pub fn wipe(out: &mut [u8], right: usize)
    ensures { out.new ≡ cleared right out.old }
{
    if out.len() == right {
        clear(out);
    }
}

// `to` becomes `from` and the answer is true; between different lengths nothing changes and the answer is false.
pub fn copy(from: &[u8], to: &mut [u8]) -> bool
    ensures { (result ≡ eqb (length from.now) (length to.old))
        × (to.new ≡ cond result from.now to.old) }
{
    if from.len() != to.len() {
        return false;
    }
    // Not `copy_from_slice`: an archive would then need `memmove` from outside.
    for (i, byte) in from.iter().enumerate() {
        to[i] = *byte;
    }
    true
}
