// Repair of a Sector (document 01, demand 3).
#![tactic(auto)]

ghost use Rattle.repair.specs.Repair.{Repairs, refusal_of, say_of};

use outcome::Refusal;

// Why no Sector is handed out.
#[derive(Clone, Copy, Debug, PartialEq, Eq)]
pub enum RepairError {
    WrongIncoming,
    WrongOutgoing,
    NoSectorNear,
}

impl Refusal for RepairError {
    ghost refusal_of = { refusal_of };

    fn number(self) -> u8 {
        match self {
            RepairError::WrongIncoming => 1,
            RepairError::WrongOutgoing => 2,
            RepairError::NoSectorNear => 5,
        }
    }
}

// Hands out the one correct Sector of Mode 01 that differs from what came in in at most one byte of each P codeword, with the count
// of changed bytes, or refuses.
pub fn repair(received: &[u8], out: &mut [u8]) -> Result<usize, RepairError>
    ensures { Repairs received.now out.old (say_of result) out.new }
{
    if received.len() != 2352 {
        outcome::wipe(out, 2352);
        return Err(RepairError::WrongIncoming);
    }
    if out.len() != 2352 {
        return Err(RepairError::WrongOutgoing);
    }
    let mut s = sector::blank();
    let near = candidates::candidate(received, &mut s);
    let right = mode01_rules::rules_right(&s);
    if !(near & right) {
        outcome::clear(out);
        return Err(RepairError::NoSectorNear);
    }
    Ok(handing_out::hand_out(received, &s, out))
}
