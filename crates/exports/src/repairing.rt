// Repair of a Sector.
ghost use Rattle.repair.specs.Repair.{Repairs, say_of};
ghost use Rattle.told.specs.Told.{Tells, Told};

use outcome::Refusal;
use repair::RepairError;

// With a Sector that is handed out comes the count of changed bytes.
fn tell(a: Result<usize, RepairError>, changed: &mut [u64; 1]) -> u8
    ensures { Tells 1 (say_of a) result changed.new }
{
    match a {
        Ok(count) => told::tell(0, [count as u64], changed),
        Err(e) => told::tell(e.number(), [0], changed),
    }
}

#[unsafe(no_mangle)]
pub extern "C" fn road_repair(received: &[u8], out: &mut [u8], changed: &mut [u64; 1]) -> u8
    ensures { Told 1 (λ say. Repairs received.now out.old say out.new) result changed.new }
{
    tell(repair::repair(received, out), changed)
}
