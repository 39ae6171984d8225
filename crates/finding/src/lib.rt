// Finding Sectors in a row of F1-frames at a frame and n not known beforehand (clause 16; document 02, §11).
#![tactic(auto)]

ghost use Rattle.std.specs.Prelude.{◌≡◌, ◌+◌, ◌*◌, ◌/◌, ◌%◌, ◌≤◌, ◌<◌, length};
ghost use Rattle.std.specs.Option.{MatchOption};
ghost use Rattle.outcome.specs.Say.{outcome};
ghost use Rattle.alignment.specs.Found.{place, sync_stands, n_of, frame_of, whole_from, sectors_from, finding};
ghost use Rattle.finding.specs.FindSay.{refusal_of, say_of};

use outcome::Refusal;

// The outgoing bytes: 27 Sectors, as many as 2,730 frames can hold whole.
const ROOM: usize = 63504;

// Where Sync was found, in byte 4n of a frame, and how many Sectors are whole from there on.
#[derive(Clone, Copy, Debug, PartialEq, Eq)]
pub struct Found {
    pub frame: usize,
    pub n: usize,
    pub count: usize,
}

// Why no Sectors are handed out.
#[derive(Clone, Copy, Debug, PartialEq, Eq)]
pub enum FindError {
    WrongIncoming,
    WrongOutgoing,
    NoSync,
}

impl Refusal for FindError {
    ghost refusal_of = { refusal_of };

    fn number(self) -> u8 {
        match self {
            FindError::WrongIncoming => 1,
            FindError::WrongOutgoing => 2,
            FindError::NoSync => 24,
        }
    }
}

// `out` becomes the Sectors, still scrambled, from the first place on at which Sync stands, and zeros behind them.
pub fn find(frames: &[u8], out: &mut [u8]) -> Result<Found, FindError>
    ensures { outcome (say_of result) out.new ≡ finding frames.now out.old }
{
    if !alignment::in_row(24, 2730, frames.len()) {
        outcome::wipe(out, ROOM);
        return Err(FindError::WrongIncoming);
    }
    if out.len() != ROOM {
        return Err(FindError::WrongOutgoing);
    }
    let Some((frame, n)) = first_sync(frames) else {
        out.fill(0);
        return Err(FindError::NoSync);
    };
    let count = put_sectors(frames, frame, n, out);
    Ok(Found { frame, n, count })
}

// The first frame that has Sync at some n, and the first such n.
fn first_sync(frames: &[u8]) -> Option<(usize, usize)>
    requires { (length frames.now % 24 ≡ 0) × (length frames.now ≤ 65520) }
    ensures { MatchOption result (length frames.now / 24 ≤ frame_of frames.now)
        (λ p. (p.0 ≡ frame_of frames.now) × (p.0 < length frames.now / 24) × (p.1 ≡ n_of frames.now p.0) × (p.1 < 6)) }
{
    for f in 0..frames.len() / 24 {
        if let Some(n) = n_of(frames, f) {
            return Some((f, n));
        }
    }
    None
}

// The first n of frame f at which Sync stands.
fn n_of(frames: &[u8], f: usize) -> Option<usize>
    requires { (length frames.now % 24 ≡ 0) × (f < 2730) }
    ensures { MatchOption result (6 ≤ n_of frames.now f) (λ n. (n ≡ n_of frames.now f) × (n < 6)) }
{
    (0..6).find(|n| sync_stands(frames, f, *n))
}

// Whether the twelve Sync bytes stand from byte 4n of frame f on. That byte begins a pair, so they stand there as they are when exchanged.
fn sync_stands(frames: &[u8], f: usize, n: usize) -> bool
    requires { (length frames.now % 24 ≡ 0) × (f < 2730) × (n < 6) }
    ensures { result ≡ sync_stands frames.now f n }
{
    let p = 24 * f + 4 * n;
    sync_bytes::sync_at(frames, p)
}

// All Sectors that are whole from byte 4n of frame f on, and how many they are.
fn put_sectors(frames: &[u8], f: usize, n: usize, out: &mut [u8]) -> usize
    requires { (length frames.now % 24 ≡ 0) × (length frames.now ≤ 65520) × (f < length frames.now / 24) × (n < 6) × (length out.old ≡ 63504) }
    ensures { (result ≡ whole_from (place f n) frames.now) × (out.new ≡ sectors_from (place f n) frames.now) }
{
    out.fill(0);
    let first = 24 * f + 4 * n;
    let count = (frames.len() - first) / 2352;
    let bytes = 2352 * count;
    let end = first + bytes;
    pair_exchange::exchange_pairs(&frames[first..end], &mut out[0..bytes]);
    count
}
