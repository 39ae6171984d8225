// The fate of a Sector in the report.
#![tactic(auto)]

ghost use Rattle.std.specs.Prelude.{◌≡◌, get_or};
ghost use Rattle.repair.specs.Repair.{say_of};
ghost use Rattle.fate.specs.Fated.{fate_from};

use address::HeaderTime;
use fate_counts::Fate;
use outcome::Refusal;
use repair::RepairError;

// The byte at a place, and 0 behind the end.
fn byte_at(s: &[u8], i: usize) -> u8
    ensures { result ≡ get_or s.now i 0 }
{
    s.get(i).copied().unwrap_or(0)
}

// Clean or repaired with the time handed out, or refused: what repair answered, with what it left in the Sector's place.
pub fn fate_of(answer: Result<usize, RepairError>, handed: &[u8]) -> Fate
    ensures { result ≡ fate_from (say_of answer) handed.now }
{
    match answer {
        Ok(changed) => {
            let minute = byte_at(handed, 12);
            let second = byte_at(handed, 13);
            let time = HeaderTime::new(minute, second, byte_at(handed, 14));
            if changed == 0 {
                return Fate::Clean(time);
            }
            Fate::Repaired(time, changed as u64)
        }
        Err(e) => Fate::Refused(e.number() as u64),
    }
}
