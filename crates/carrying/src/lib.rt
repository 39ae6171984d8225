// Carrying the Main Data of 1 to 16 Data Frames over into Sectors of Mode 01 (document 02, §14).
#![tactic(auto)]

ghost use Rattle.std.specs.Prelude.{◌≡◌, true, ◌*◌, length};
ghost use Rattle.address.specs.Address.{in_range};
ghost use Rattle.address_counting.specs.Count.{room};
ghost use Rattle.frame_reader.specs.Reading as read;
ghost use Rattle.carrying.specs.Carry.{DataFrames, Carried, Carries, says, refusal_of, say_of};
ghost use Rattle.carrying.specs.Inner.Numbers.{Counted};

use address::HeaderTime;
use frame_reader::ReadFrameError;
use outcome::Refusal;

// Why nothing is carried over.
#[derive(Clone, Copy, Debug, PartialEq, Eq)]
pub enum CarryError {
    WrongIncoming,
    WrongOutgoing,
    WrongIdentification,
    WrongEdc,
    ReservedBit,
    WrongAddress,
    PastTheEnd,
}

impl Refusal for CarryError {
    ghost refusal_of = { refusal_of };

    fn number(self) -> u8 {
        match self {
            CarryError::WrongIncoming => 1,
            CarryError::WrongOutgoing => 2,
            CarryError::WrongIdentification => 28,
            CarryError::WrongEdc => 29,
            CarryError::ReservedBit => 30,
            CarryError::WrongAddress => 4,
            CarryError::PastTheEnd => 31,
        }
    }
}

// A frame that cannot be read keeps its number.
impl From<ReadFrameError> for CarryError {
    ghost from_gives = { λ e r. refusal_of r ≡ read.refusal_of e };

    fn from(e: ReadFrameError) -> Self {
        match e {
            ReadFrameError::WrongIncoming => CarryError::WrongIncoming,
            ReadFrameError::WrongOutgoing => CarryError::WrongOutgoing,
            ReadFrameError::WrongIdentification => CarryError::WrongIdentification,
            ReadFrameError::WrongEdc => CarryError::WrongEdc,
            ReadFrameError::ReservedBit => CarryError::ReservedBit,
        }
    }
}

// How many frames these are, where they are 1 to 16.
fn frames_in(frames: &[u8]) -> Option<usize>
    ensures { Counted frames.now result }
{
    let n = frames.len() / 2064;
    if frames.len() % 2064 != 0 {
        return None;
    }
    if n == 0 || n > 16 {
        return None;
    }
    Some(n)
}

// What is demanded of the frames and of the addresses, in its order.
fn demands(n: usize, frames: &[u8], start: HeaderTime) -> Result<(), CarryError>
    requires { DataFrames n frames.now }
    ensures { say_of result ≡ says n frames.now start }
{
    frame_faults::first_fault(frames)?;
    if !start.in_range() {
        return Err(CarryError::WrongAddress);
    }
    if !address_counting::fits(start, n) {
        return Err(CarryError::PastTheEnd);
    }
    Ok(())
}

// Each of `n` frames' Main Data is written into its own Sector, at the addresses from `start` on.
fn write_each(n: usize, frames: &[u8], start: HeaderTime, out: &mut [u8])
    requires { DataFrames n frames.now × (length out.old ≡ 2352 * n) × (in_range start ≡ true) × (room n start ≡ true) }
    ensures { Carried n frames.now start out.new }
{
    let mut time = start;
    for i in 0..n {
        let from = 2064 * i + 12;
        let to = 2352 * i;
        let _ = writer::write(1, time, &frames[from..from + 2048], &mut out[to..to + 2352]);
        time = address_counting::following(time);
    }
}

// Carries frames over, one Sector for each, or refuses all of them.
#[tactic(auto, using(crate::proofs::WaysOut::on_refusal))]
pub fn carry(frames: &[u8], start: HeaderTime, out: &mut [u8]) -> Result<(), CarryError>
    ensures { Carries frames.now start out.old (say_of result) out.new }
{
    let Some(n) = frames_in(frames) else {
        return Err(CarryError::WrongIncoming);
    };
    if out.len() != 2352 * n {
        return Err(CarryError::WrongOutgoing);
    }
    // A refusal leaves zeros, in the Sectors of the frames before a faulty one too.
    out.fill(0);
    demands(n, frames, start)?;
    write_each(n, frames, start, out);
    Ok(())
}
