// The scrambler of Annex B: bytes 12 to 2,351 of a Sector are added modulo 2 to the sequence.
#![tactic(auto)]

ghost use Rattle.std.specs.Prelude.{◌≡◌, length};
ghost use Rattle.outcome.specs.Say.{outcome};
ghost use Rattle.entry.specs.Entry.{say_of};
ghost use Rattle.scrambling.specs.Scramble.{scrambled, scrambling};

use entry::{EntryError, SECTOR};

// `out` becomes the Sector, scrambled, or of a scrambled one the Sector again.
pub fn scramble(sector: &[u8], out: &mut [u8]) -> Result<(), EntryError>
    ensures { outcome (say_of result) out.new ≡ scrambling sector.now out.old }
{
    if sector.len() != SECTOR {
        outcome::wipe(out, SECTOR);
        return Err(EntryError::WrongIncoming);
    }
    if out.len() != SECTOR {
        return Err(EntryError::WrongOutgoing);
    }
    put_scrambled(sector, out);
    Ok(())
}

// The Sync is copied only.
fn put_scrambled(sector: &[u8], out: &mut [u8])
    requires { (length sector.now ≡ 2352) × (length out.old ≡ 2352) }
    ensures { out.new ≡ scrambled sector.now }
{
    outcome::copy(sector, out);
    let sequence = sequence::worked_out();
    xor::add(&mut out[12..], &sequence);
}
