// Salvage of a Sector with both parities (document 02, §10): passes over P and Q in turn until what is tried of the bytes is correct.
#![tactic(auto)]

ghost use Rattle.std.specs.Prelude.{◌≡◌, length};
ghost use Rattle.salvaging.specs.Salvage.{InRange, Room, Salvages};
ghost use Rattle.salvage.specs.Answers.{refusal_of, say_of};
ghost use Rattle.salvage.specs.Inner.Works.{Works};

use outcome::Refusal;

// So many passes may be allowed.
const MOST_PASSES: u8 = 32;

// The number of passes used for the Sector that is handed out, and the count of its changes.
#[derive(Clone, Copy, Debug, PartialEq, Eq)]
pub struct Salvaged {
    pub passes: u8,
    pub changes: usize,
}

// Why nothing is handed out.
#[derive(Clone, Copy, Debug, PartialEq, Eq)]
pub enum SalvageError {
    WrongIncoming,
    WrongOutgoing,
    WrongPasses,
    NoneCorrect,
}

impl Refusal for SalvageError {
    ghost refusal_of = { refusal_of };

    fn number(self) -> u8 {
        match self {
            SalvageError::WrongIncoming => 1,
            SalvageError::WrongOutgoing => 2,
            SalvageError::WrongPasses => 22,
            SalvageError::NoneCorrect => 5,
        }
    }
}

// The search for what came in: the Sector and the list of changes are handed out, or nothing is.
fn work(
    received: &[u8],
    passes: u8,
    out: &mut [u8],
    changes: &mut [u8],
) -> Result<Salvaged, SalvageError>
    requires { (length received.now ≡ 2352) × Room out.old changes.old × InRange passes }
    ensures { Works received.now passes out.old changes.old (say_of result) out.new changes.new }
{
    let mut s = sector::blank();
    s.copy_from_slice(received);
    let mut t = sector::blank();
    let found = salvage_search::search(&mut s, &mut t, passes);
    let Some(used) = found else {
        return Err(SalvageError::NoneCorrect);
    };
    out.copy_from_slice(&t);
    let count = listing::list_changes(received, &t, changes);
    Ok(Salvaged {
        passes: used,
        changes: count,
    })
}

// Hands out the first correct Sector of Mode 01 that up to `passes` passes yield, and in `changes` the list of every change against what came in,
// with the number of passes used and the count of changes, or refuses.
pub fn salvage(
    received: &[u8],
    passes: u8,
    out: &mut [u8],
    changes: &mut [u8],
) -> Result<Salvaged, SalvageError>
    ensures { Salvages received.now passes out.old changes.old (say_of result) out.new changes.new }
{
    outcome::wipe(out, 2352);
    outcome::wipe(changes, 9408);
    if received.len() != 2352 {
        return Err(SalvageError::WrongIncoming);
    }
    if out.len() != 2352 || changes.len() != 9408 {
        return Err(SalvageError::WrongOutgoing);
    }
    if passes == 0 || MOST_PASSES < passes {
        return Err(SalvageError::WrongPasses);
    }
    work(received, passes, out, changes)
}
