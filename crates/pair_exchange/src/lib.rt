// The exchange of the bytes of each pair, in whole F1-frames (clause 16).
#![tactic(auto)]

ghost use Rattle.std.specs.Prelude.{◌≡◌, cond, ◌%◌, length};
ghost use Rattle.pair_exchange.specs.Exchange.{exchanged, whole_frames};

// `out` becomes `from` with the bytes of each pair exchanged and the answer is true, where both are as many whole times 24 bytes; else nothing
// changes and the answer is false.
pub fn exchange_pairs(from: &[u8], out: &mut [u8]) -> bool
    ensures { (result ≡ whole_frames from.now out.old) × (out.new ≡ cond result (exchanged from.now) out.old) }
{
    if from.len() != out.len() || from.len() % 24 != 0 {
        return false;
    }
    put_exchanged(from, out);
    true
}

// Frame by frame, both buffers of the same length.
fn put_exchanged(from: &[u8], out: &mut [u8])
    requires { (length from.now % 24 ≡ 0) × (length out.old ≡ length from.now) }
    ensures { out.new ≡ exchanged from.now }
{
    for i in 0..from.len() / 24 {
        let start = 24 * i;
        let end = start + 24;
        out[start..end].copy_from_slice(&exchanged_frame(&from[start..end]));
    }
}

// One frame, which nothing else can reach while it is made: so the compiler moves its bytes all at once.
fn exchanged_frame(bytes: &[u8]) -> [u8; 24]
    requires { length bytes.now ≡ 24 }
    ensures { result ≡ exchanged bytes.now }
{
    let mut frame = [0u8; 24];
    for pair in 0..12 {
        let i = 2 * pair;
        frame[i] = bytes[i + 1];
        frame[i + 1] = bytes[i];
    }
    frame
}
