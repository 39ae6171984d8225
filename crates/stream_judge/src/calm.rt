// A quick pass for runs and Sync Headers, 24 bits at a time.
ghost use Rattle.std.specs.Prelude.{◌≡◌, ◌*◌, ◌≤◌, length};
ghost use Rattle.stream_rules.specs.Offences.{judged};
ghost use Rattle.stream_windows.specs.Calm.Until.{ClearBelow};

use crate::taken;

// A bit before which no run and no Sync Header offends.
pub(crate) fn calm_until(channel: &[u8], n: usize) -> usize
    requires { (length channel.now ≡ 7203 * n) × (1 ≤ n) × (n ≤ 9) }
    ensures { (result ≤ 57624 * n) × ClearBelow (judged channel.now) result }
{
    let mut held = taken::triple(channel, 0);
    for t in 0..2401 * n {
        let next = taken::triple(channel, t + 1);
        let w = held * 16777216 + next;
        let calm = stream_windows::is_triple_calm(w, t % 49);
        if !calm {
            return 24 * t;
        }
        held = w % 1099511627776;
    }
    57624 * n
}
