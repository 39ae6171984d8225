// Repair of 1 to 16 Sectors.
ghost use Rattle.std.specs.Prelude.{◌≡◌};
ghost use Rattle.batch.specs.Batch as many;
ghost use Rattle.repair.specs.Repair as single;
ghost use Rattle.told.specs.Told.{number_of, Tells, Told};
ghost use Rattle.exports.specs.Batches.{changed_in, numbers_of, changed_of, ManyTold};

use batch::{BatchError, SectorFate};
use outcome::Refusal;

// The number of what a single repair says.
fn number(fate: SectorFate) -> u64
    ensures { result ≡ number_of (single.say_of fate) }
{
    match fate {
        Ok(_) => 0,
        Err(e) => e.number() as u64,
    }
}

// The count of changed bytes, and 0 where it is refused.
fn changed_bytes(fate: SectorFate) -> u64
    ensures { result ≡ changed_in (single.say_of fate) }
{
    match fate {
        Ok(count) => count as u64,
        Err(_) => 0,
    }
}

fn tell_fates(fates: [SectorFate; 16], numbers: &mut [u64; 16], changed: &mut [u64; 16])
    ensures { (numbers.new ≡ numbers_of fates) × (changed.new ≡ changed_of fates) }
{
    let mut by_number = [0u64; 16];
    let mut by_count = [0u64; 16];
    for (i, fate) in fates.iter().enumerate() {
        by_number[i] = number(*fate);
        by_count[i] = changed_bytes(*fate);
    }
    *numbers = by_number;
    *changed = by_count;
}

// With a batch that is done comes the count of its Sectors.
fn tell(a: Result<usize, BatchError>, count: &mut [u64; 1]) -> u8
    ensures { Tells 1 (many.say_of a) result count.new }
{
    match a {
        Ok(n) => told::tell(0, [n as u64], count),
        Err(e) => told::tell(e.number(), [0], count),
    }
}

// Each of the sixteen fates has its number and its count of changed bytes.
#[unsafe(no_mangle)]
pub extern "C" fn road_repair_many(
    received: &[u8],
    out: &mut [u8],
    count: &mut [u64; 1],
    numbers: &mut [u64; 16],
    changed: &mut [u64; 16],
) -> u8
    ensures { Told 1 (λ say. ManyTold received.now out.old say numbers.new changed.new out.new) result count.new }
{
    let batch = batch::repair_many(received, out);
    tell_fates(batch.fates, numbers, changed);
    tell(batch.answer, count)
}
