// The runs of a capture in Channel bits (document 02, §5): how long each is, and the first that is not legal.
#![tactic(auto)]

ghost use Rattle.std.specs.Prelude.{◌≡◌};
ghost use Rattle.replaying.specs.Replay.{first_illegal};
ghost use Rattle.legal_runs.specs.EdgeBits.{runs, edge_bits};

// The bits from edge i to the next: the last edge is a bit of its own.
pub fn bits_at(capture: &[u8], i: usize) -> usize
    ensures { result ≡ edge_bits (runs capture.now) i }
{
    let Some(ticks) = edges::run_at(capture, i) else {
        return 1;
    };
    (ticks as usize + 4) / 8
}

// The first run that is not legal, or how many runs there are.
pub fn first_illegal(capture: &[u8]) -> usize
    ensures { result ≡ first_illegal (runs capture.now) }
{
    let runs = (capture.len() / 2).saturating_sub(1);
    for i in 0..runs {
        let bits = bits_at(capture, i);
        if bits < 3 || 11 < bits {
            return i;
        }
    }
    runs
}
