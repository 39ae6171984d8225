// What a window of 35 bits shows of the offences at one bit, and one of 64 bits of those at 24.
#![tactic(auto)]

ghost use Rattle.std.specs.Prelude.{◌≡◌};
ghost use Rattle.stream_windows.specs.Window.{run_in, head_wrong};
ghost use Rattle.stream_windows.specs.Calm.{calm, triple_calm};

// The bits of a Sync Header.
pub const SYNC_HEADER: u64 = 0b100000000001000000000010;

// A run offends.
pub fn run_in(v: u64) -> bool
    ensures { result ≡ run_in v }
{
    let h = v / 8388608;
    h % 4 == 3 || h % 8 == 5 || h == 2048
}

// A Sync Header is missing or extra.
pub fn head_wrong(v: u64, p: usize) -> bool
    ensures { result ≡ head_wrong p v }
{
    let head = v % 16777216 == SYNC_HEADER;
    if p % 588 == 0 { !head } else { head }
}

// No run offends at the 24 bits in the middle of w, and a Sync Header can begin only where `places` has a ZERO. A bit of `eleven` is ZERO only where that
// bit and the ten before it are, and so of the other names.
#[tactic(auto, unfolding(crate::specs::Calm::calm, crate::specs::Calm::tight, crate::specs::Calm::ones2, crate::specs::Calm::ones4, crate::specs::Calm::ones8, crate::specs::Calm::ones10, crate::specs::Calm::ones11, crate::specs::Calm::headless))]
fn is_calm(w: u64, places: u64) -> bool
    ensures { result ≡ calm w places }
{
    let two = w | (w >> 1);
    let four = two | (two >> 2);
    let eight = four | (four >> 4);
    let ten = eight | (two >> 8);
    let eleven = eight | (four >> 7);
    let headless = ten | (ten >> 11);
    w & ((w >> 1) | (w >> 2)) == 0
        && (eleven >> 24) % 16777216 == 0b111111111111111111111111
        && (headless >> 3) % 16777216 == places
}

// Triple u of the 49 of two frames: a Sync Header has its place at the beginning of the first, and in the middle of the 25th.
#[tactic(auto, unfolding(crate::specs::Calm::triple_calm))]
pub fn is_triple_calm(w: u64, u: usize) -> bool
    ensures { result ≡ triple_calm w u }
{
    match u {
        0 => (w >> 24) % 16777216 == SYNC_HEADER && is_calm(w, 0b011111111111111111111111),
        24 => (w >> 12) % 16777216 == SYNC_HEADER && is_calm(w, 0b111111111111011111111111),
        _ => is_calm(w, 0b111111111111111111111111),
    }
}
