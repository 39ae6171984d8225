// Repair of 1 to 16 Sectors in one call (document 02, §2).
#![tactic(auto)]

ghost use Rattle.std.specs.Prelude.{◌≡◌, Err, length, replicate};
ghost use Rattle.outcome.specs.Say.{cleared};
ghost use Rattle.batch.specs.Sectors.{Sectors};
ghost use Rattle.batch.specs.Batch.{no_sector, Taken, RepairsMany, refusal_of, say_of};
ghost use Rattle.batch.specs.Inner.Counted.{Counted};

use outcome::Refusal;
use repair::RepairError;

// Why no Sector is taken.
#[derive(Clone, Copy, Debug, PartialEq, Eq)]
pub enum BatchError {
    WrongIncoming,
    WrongOutgoing,
}

impl Refusal for BatchError {
    ghost refusal_of = { refusal_of };

    fn number(self) -> u8 {
        match self {
            BatchError::WrongIncoming => 1,
            BatchError::WrongOutgoing => 2,
        }
    }
}

// What becomes of one Sector: what a single repair answers.
pub type SectorFate = Result<usize, RepairError>;

// How many Sectors were taken, or why none was, and the fates of the Sectors in order; behind them stand fates of no Sector.
#[derive(Clone, Copy)]
pub struct Batch {
    pub answer: Result<usize, BatchError>,
    pub fates: [SectorFate; 16],
}

// Sixteen fates of no Sector.
fn no_fates() -> [SectorFate; 16]
    ensures { result ≡ replicate 16 no_sector }
{
    [Err(RepairError::WrongIncoming); 16]
}

// How many Sectors these are, where they are 1 to 16.
fn sectors_in(received: &[u8]) -> Option<usize>
    ensures { Counted received.now result }
{
    let n = received.len() / 2352;
    if received.len() % 2352 != 0 || n == 0 || n > 16 {
        return None;
    }
    Some(n)
}

// Each of `n` Sectors is repaired into its own part of the outgoing buffer.
fn repair_each(n: usize, received: &[u8], out: &mut [u8]) -> [SectorFate; 16]
    requires { Sectors n received.now × (length out.old ≡ length received.now) }
    ensures { Taken n received.now out.old result out.new }
{
    let mut fates = no_fates();
    for i in 0..n {
        let at = 2352 * i;
        fates[i] = repair::repair(&received[at..at + 2352], &mut out[at..at + 2352]);
    }
    fates
}

// A refusal: no Sector is taken, and a buffer of the right length is cleared.
fn refuse(error: BatchError, out: &mut [u8], right: usize) -> Batch
    ensures { (result.answer ≡ Err error) × (result.fates ≡ replicate 16 no_sector) × (out.new ≡ cleared right out.old) }
{
    outcome::wipe(out, right);
    Batch {
        answer: Err(error),
        fates: no_fates(),
    }
}

// Repairs 1 to 16 Sectors: all that the single calls one after another would answer and hand out. Where the incoming length is wrong no
// outgoing one is right.
pub fn repair_many(received: &[u8], out: &mut [u8]) -> Batch
    ensures { RepairsMany received.now out.old (say_of result.answer) result.fates out.new }
{
    let Some(n) = sectors_in(received) else {
        return refuse(BatchError::WrongIncoming, out, 0);
    };
    if out.len() != received.len() {
        return refuse(BatchError::WrongOutgoing, out, received.len());
    }
    Batch {
        answer: Ok(n),
        fates: repair_each(n, received, out),
    }
}
