// Judging a Sector.
ghost use Rattle.std.specs.Prelude.{◌≡◌, get_or};
ghost use Rattle.judge.specs.Judging.{judging, values_with, say_of};
ghost use Rattle.told.specs.Told.{Tells, Told};

use judge::{JudgeError, Passed};
use outcome::Refusal;

// The number of the codeword that fails, and 0 where none does.
fn codeword(e: JudgeError) -> u64
    ensures { result ≡ get_or (values_with e) 0 0 }
{
    match e {
        JudgeError::WrongP(n) | JudgeError::WrongQ(n) => n as u64,
        _ => 0,
    }
}

// With a Sector that passes come its mode and address, with a codeword that fails its number.
fn tell(a: Result<Passed, JudgeError>, values: &mut [u64; 4]) -> u8
    ensures { Tells 4 (say_of a) result values.new }
{
    match a {
        Ok(Passed { mode, time }) => {
            let address = [mode as u64, time.0 as u64, time.1 as u64, time.2 as u64];
            told::tell(0, address, values)
        }
        Err(e) => told::tell(e.number(), [codeword(e), 0, 0, 0], values),
    }
}

#[unsafe(no_mangle)]
pub extern "C" fn road_judge(sector: &[u8], values: &mut [u64; 4]) -> u8
    ensures { Told 4 (λ say. say ≡ judging sector.now) result values.new }
{
    tell(judge::judge(sector), values)
}
