// Single bits of the stream that is judged (document 02, §12): that of the Sections, and one more Sync Header behind it.
#![tactic(auto)]

ghost use Rattle.std.specs.Prelude.{◌≡◌, ◌<◌, get_or};
ghost use Rattle.stream_rules.specs.Offences.{judged};
ghost use Rattle.stream_windows.specs.Window.{led};

// Bit q of the stream with 16 ZEROs before it; a Sync Header stands behind the last byte, and behind that are ZEROs.
pub fn bit_at(channel: &[u8], q: usize) -> u64
    ensures { (result ≡ get_or (led (judged channel.now)) q 0) × (result < 2) }
{
    if q < 16 {
        return 0;
    }
    let k = q - 16;
    let i = k / 8;
    if i < channel.len() {
        return (u64::from(channel[i]) >> (7 - k % 8)) % 2;
    }
    let behind = i - channel.len();
    if behind >= 3 {
        return 0;
    }
    (stream_windows::SYNC_HEADER >> (23 - (8 * behind + k % 8))) % 2
}
