// A capture replayed into Channel Frames (document 02, §5).
#![tactic(auto)]

ghost use Rattle.std.specs.Prelude.{◌≡◌, ◌*◌, ◌/◌, ◌<◌, length, set, drop};
ghost use Rattle.outcome.specs.Say.{outcome};
ghost use Rattle.bits.specs.Bits.{unpack};
ghost use Rattle.replaying.specs.Replay.{channel, replaying};
ghost use Rattle.legal_runs.specs.EdgeBits.{runs};
ghost use Rattle.header_search.specs.HeaderEdge.{header_edge};
ghost use Rattle.replay.specs.Answers.{refusal_of, say_of};
ghost use Rattle.replay.specs.FromEdge.{replaying_from};
ghost use Rattle.replay.specs.Inner.Frames.{EdgeThere, FramesDue, FramesPut};

use outcome::Refusal;

// What replaying a capture makes: the used length and the number of frames.
#[derive(Clone, Copy, Debug, PartialEq, Eq)]
pub struct Replayed {
    pub used: usize,
    pub frames: usize,
}

// Why nothing is replayed; with an illegal run comes its index.
#[derive(Clone, Copy, Debug, PartialEq, Eq)]
pub enum ReplayError {
    WrongIncoming,
    WrongOutgoing,
    IllegalRun(usize),
    NoHeader,
}

impl Refusal for ReplayError {
    ghost refusal_of = { refusal_of };

    fn number(self) -> u8 {
        match self {
            ReplayError::WrongIncoming => 1,
            ReplayError::WrongOutgoing => 2,
            ReplayError::IllegalRun(_) => 20,
            ReplayError::NoHeader => 21,
        }
    }
}

// How many whole frames there are from edge k on.
fn frames_from(capture: &[u8], k: usize) -> usize
    requires { EdgeThere capture.now k }
    ensures { result ≡ length (channel (drop k (runs capture.now))) / 588 }
{
    let runs = (capture.len() / 2).saturating_sub(1);
    let mut bits: usize = 1;
    for j in k..runs {
        bits += legal_runs::bits_at(capture, j);
    }
    bits / 588
}

// Bit q becomes a ONE.
fn put_one(out: &mut [u8], q: usize)
    requires { q < 8 * length out.old }
    ensures { unpack out.new ≡ set (unpack out.old) q 1 }
{
    let i = q / 8;
    let j = (q % 8) as u32;
    out[i] |= 128u8 >> j;
}

// The bits from edge k on, as far as bit `end`, put into a buffer of zeros: each edge is a ONE.
fn put_frames(capture: &[u8], k: usize, end: usize, out: &mut [u8])
    requires { FramesDue capture.now k end out.old }
    ensures { FramesPut capture.now k end out.new }
{
    let mut q: usize = 0;
    let mut j = k;
    // No `for`: a turn goes on by the bits of the run.
    while q < end {
        put_one(out, q);
        q += legal_runs::bits_at(capture, j);
        j += 1;
    }
}

// The work: `frames` becomes the Channel Frames of the capture from the Sync Header at edge k on.
fn replay_from(capture: &[u8], k: usize, frames: &mut [u8]) -> Result<Replayed, ReplayError>
    ensures { outcome (say_of result) frames.new ≡ replaying_from capture.now k frames.old }
{
    outcome::wipe(frames, 65536);
    if !edge_counts::is_capture(capture) {
        return Err(ReplayError::WrongIncoming);
    }
    if frames.len() != 65536 {
        return Err(ReplayError::WrongOutgoing);
    }
    let illegal = legal_runs::first_illegal(capture);
    if illegal + 1 < capture.len() / 2 {
        return Err(ReplayError::IllegalRun(illegal));
    }
    if !header_search::stands_at(capture, k) {
        return Err(ReplayError::NoHeader);
    }
    let n = frames_from(capture, k);
    put_frames(capture, k, 588 * n, frames);
    Ok(Replayed {
        used: (588 * n + 7) / 8,
        frames: n,
    })
}

// A reader that stays over the lent capture with its place, an edge (document 02, §5). The work is left to functions of a slice and a number.
#[derive(Clone, Copy)]
pub struct Reader<'a> {
    pub src: &'a [u8],
    pub at: usize,
}

impl<'a> Reader<'a> {
    // A reader at the first edge of a capture.
    pub fn over(src: &'a [u8]) -> Self
        ensures { (result.src ≡ src.entry) × (result.at ≡ 0) }
    {
        Reader { src, at: 0 }
    }

    // The reader moved on to the edge at which the first Sync Header from its place on begins, or where the search ends.
    pub fn seek(self) -> Self
        ensures { (result.src ≡ self.entry.src) × (result.at ≡ header_edge (runs self.entry.src.now) self.entry.at) }
    {
        let at = header_search::header_edge(self.src, self.at);
        Reader { at, ..self }
    }

    // `frames` becomes the Channel Frames from the Sync Header at the reader's place on.
    pub fn play(self, frames: &mut [u8]) -> Result<Replayed, ReplayError>
        ensures { outcome (say_of result) frames.new ≡ replaying_from self.entry.src.now self.entry.at frames.old }
    {
        replay_from(self.src, self.at, frames)
    }
}

// `frames` becomes the Channel Frames of the capture from its first Sync Header on: one reader goes over it, from the first edge to the last frame.
pub fn replay(capture: &[u8], frames: &mut [u8]) -> Result<Replayed, ReplayError>
    ensures { outcome (say_of result) frames.new ≡ replaying capture.now frames.old }
{
    Reader::over(capture).seek().play(frames)
}
