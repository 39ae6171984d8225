// Sectors at byte 4n of a frame: written, and found.
ghost use Rattle.std.specs.Prelude.{◌≡◌, []};
ghost use Rattle.outcome.specs.Say.{outcome};
ghost use Rattle.alignment.specs.Aligned.{aligning};
ghost use Rattle.alignment.specs.Found.{finding};
ghost use Rattle.finding.specs.FindSay as searched;
ghost use Rattle.told.specs.Told.{Tells, Told};

use finding::{FindError, Found};
use outcome::Refusal;

// With Sectors that are found come their frame, n and number.
fn tell_found(a: Result<Found, FindError>, values: &mut [u64; 3]) -> u8
    ensures { Tells 3 (searched.say_of a) result values.new }
{
    match a {
        Ok(f) => told::tell(0, [f.frame as u64, f.n as u64, f.count as u64], values),
        Err(e) => told::tell(e.number(), [0; 3], values),
    }
}

#[unsafe(no_mangle)]
pub extern "C" fn road_align(sectors: &[u8], n: usize, out: &mut [u8]) -> u8
    ensures { Told 0 (λ say. outcome say out.new ≡ aligning sectors.now n out.old) result [] }
{
    told::number(aligning::align(sectors, n, out))
}

#[unsafe(no_mangle)]
pub extern "C" fn road_find(frames: &[u8], out: &mut [u8], values: &mut [u64; 3]) -> u8
    ensures { Told 3 (λ say. outcome say out.new ≡ finding frames.now out.old) result values.new }
{
    tell_found(finding::find(frames, out), values)
}
