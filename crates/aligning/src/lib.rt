// Writing 1 to 16 scrambled Sectors with byte 0 of the first in byte 4n of a frame (clause 16; document 02, §11).
#![tactic(auto)]

ghost use Rattle.std.specs.Prelude.{◌≡◌, true, ◌+◌, ◌*◌, ◌/◌, ◌≤◌, length};
ghost use Rattle.outcome.specs.Say.{outcome};
ghost use Rattle.alignment.specs.Row.{is_row};
ghost use Rattle.alignment.specs.Aligned.{frames_for, aligned, aligning};
ghost use Rattle.aligning.specs.AlignSay.{refusal_of, say_of};

use outcome::Refusal;

// Why no Sectors are aligned.
#[derive(Clone, Copy, Debug, PartialEq, Eq)]
pub enum AlignError {
    WrongIncoming,
    UnknownPlace,
    WrongOutgoing,
}

impl Refusal for AlignError {
    ghost refusal_of = { refusal_of };

    fn number(self) -> u8 {
        match self {
            AlignError::WrongIncoming => 1,
            AlignError::UnknownPlace => 23,
            AlignError::WrongOutgoing => 2,
        }
    }
}

// `out` becomes the F1-frames of the Sectors, one after the other, with zero bytes before and behind them.
pub fn align(sectors: &[u8], n: usize, out: &mut [u8]) -> Result<(), AlignError>
    ensures { outcome (say_of result) out.new ≡ aligning sectors.now n out.old }
{
    if !alignment::in_row(2352, 16, sectors.len()) {
        return Err(AlignError::WrongIncoming);
    }
    if n > 5 {
        return Err(AlignError::UnknownPlace);
    }
    if out.len() != frame_bytes(n, sectors.len()) {
        return Err(AlignError::WrongOutgoing);
    }
    put_aligned(sectors, n, out);
    Ok(())
}

// The bytes of the frames that so many bytes from byte 4n on fill.
fn frame_bytes(n: usize, bytes: usize) -> usize
    requires { (n ≤ 5) × (bytes ≤ 37632) }
    ensures { result ≡ 24 * ((4 * n + bytes + 23) / 24) }
{
    (4 * n + bytes).next_multiple_of(24)
}

// The Sectors' pairs are pairs of their frames, since 4n is even: so the Sectors alone are exchanged.
fn put_aligned(sectors: &[u8], n: usize, out: &mut [u8])
    requires { (is_row 2352 16 (length sectors.now) ≡ true) × (n ≤ 5) × (length out.old ≡ 24 * frames_for n sectors.now) }
    ensures { out.new ≡ aligned n sectors.now }
{
    let start = 4 * n;
    let end = start + sectors.len();
    out[..start].fill(0);
    pair_exchange::exchange_pairs(sectors, &mut out[start..end]);
    out[end..].fill(0);
}
