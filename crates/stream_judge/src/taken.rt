// Bits of the stream that is judged, 35 or 24 at once.
ghost use Rattle.std.specs.Prelude.{◌≡◌, ◌*◌, ◌%◌, ◌≤◌, ◌<◌, length};
ghost use Rattle.fields.specs.Fields.{field_at};
ghost use Rattle.stream_rules.specs.Offences.{judged};
ghost use Rattle.stream_windows.specs.Window.{window};

// The window at bit p.
pub(crate) fn window_at(channel: &[u8], p: usize) -> u64
    requires { (length channel.now ≤ 64827) × (p ≤ 8 * length channel.now) }
    ensures { result ≡ window (judged channel.now) p }
{
    let mut v = 0;
    for k in 0..35 {
        let b = judged_bits::bit_at(channel, p + 5 + k);
        v = 2 * v + b;
    }
    v
}

// Triple t of the stream: 24 bits, those of three bytes or of the Sync Header behind.
pub(crate) fn triple(channel: &[u8], t: usize) -> u64
    requires { (length channel.now ≤ 64827) × (3 * t ≤ length channel.now) × (length channel.now % 3 ≡ 0) }
    ensures { (result ≡ field_at (judged channel.now) (24 * t) 24) × (result < 16777216) }
{
    if 3 * t + 2 < channel.len() {
        return fields::field(channel, 24 * t, 24);
    }
    stream_windows::SYNC_HEADER
}
