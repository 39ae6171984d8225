// F1-frames: 98 frames of 24 bytes, in each of which the bytes of a pair are exchanged.
#![tactic(auto)]

ghost use Rattle.std.specs.Prelude.{◌≡◌};
ghost use Rattle.outcome.specs.Say.{outcome};
ghost use Rattle.entry.specs.Entry.{say_of, answering};
ghost use Rattle.pair_exchange.specs.Exchange.{exchanged};
ghost use Rattle.f1_frames.specs.Frames.{cutting, joining};

use entry::{EntryError, SECTOR};

// `out` becomes the F1-frames of a scrambled Sector, one after the other.
pub fn cut(scrambled: &[u8], out: &mut [u8]) -> Result<(), EntryError>
    ensures { outcome (say_of result) out.new ≡ cutting scrambled.now out.old }
{
    exchange(scrambled, out)
}

// `out` becomes the scrambled Sector that stands in 98 F1-frames.
pub fn join(frames: &[u8], out: &mut [u8]) -> Result<(), EntryError>
    ensures { outcome (say_of result) out.new ≡ joining frames.now out.old }
{
    exchange(frames, out)
}

// A frame has an even number of bytes, so that both ways are the same exchange of all pairs.
fn exchange(from: &[u8], out: &mut [u8]) -> Result<(), EntryError>
    ensures { outcome (say_of result) out.new ≡ answering exchanged from.now out.old }
{
    if from.len() != SECTOR {
        outcome::wipe(out, SECTOR);
        return Err(EntryError::WrongIncoming);
    }
    if out.len() != SECTOR {
        return Err(EntryError::WrongOutgoing);
    }
    pair_exchange::exchange_pairs(from, out);
    Ok(())
}
