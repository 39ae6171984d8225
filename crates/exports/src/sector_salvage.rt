// Salvage of a Sector.
ghost use Rattle.salvaging.specs.Salvage.{Salvages};
ghost use Rattle.salvage.specs.Answers.{say_of};
ghost use Rattle.told.specs.Told.{Tells, Told};

use outcome::Refusal;
use salvage::{SalvageError, Salvaged};

// With a Sector that is handed out come the number of passes used and the count of changes.
fn tell(answer: Result<Salvaged, SalvageError>, values: &mut [u64; 2]) -> u8
    ensures { Tells 2 (say_of answer) result values.new }
{
    match answer {
        Ok(salvaged) => told::tell(0, [salvaged.passes as u64, salvaged.changes as u64], values),
        Err(e) => told::tell(e.number(), [0, 0], values),
    }
}

#[unsafe(no_mangle)]
pub extern "C" fn road_salvage(
    received: &[u8],
    passes: u8,
    out: &mut [u8],
    changes: &mut [u8],
    values: &mut [u64; 2],
) -> u8
    ensures { Told 2 (λ say. Salvages received.now passes out.old changes.old say out.new changes.new) result values.new }
{
    tell(salvage::salvage(received, passes, out, changes), values)
}
