// A list of run lengths turned back into its capture (document 02, §5).
#![tactic(auto)]

ghost use Rattle.std.specs.Prelude.{◌+◌, ◌≤◌, length};
ghost use Rattle.captures.specs.Kept.{Restores};
ghost use Rattle.restoring.specs.Answers.{refusal_of, say_of};
ghost use Rattle.restoring.specs.Inner.Read.{Ready, Reads};
ghost use Rattle.restoring.specs.Inner.Count.{Counted};

use outcome::Refusal;

// Why no capture is restored.
#[derive(Clone, Copy, Debug, PartialEq, Eq)]
pub enum RestoreError {
    WrongIncoming,
    WrongOutgoing,
    WrongNumber,
}

impl Refusal for RestoreError {
    ghost refusal_of = { refusal_of };

    fn number(self) -> u8 {
        match self {
            RestoreError::WrongIncoming => 1,
            RestoreError::WrongOutgoing => 2,
            RestoreError::WrongNumber => 19,
        }
    }
}

// A count put into the capture, high byte first.
fn put_count(capture: &mut [u8], used: usize, count: u16)
    requires { used + 2 ≤ length capture.old }
    ensures { Counted used count capture.old capture.new }
{
    capture[used..used + 2].copy_from_slice(&count.to_be_bytes());
}

// The counts of the numbers of a list, put into a capture of zeros; the answer is its used length, or none where it is no list. Each number goes on from the count before,
// the first from 0.
fn put_counts(list: &[u8], capture: &mut [u8]) -> Option<usize>
    requires { Ready list.now capture.old }
    ensures { Reads list.now result capture.new }
{
    let mut last: u16 = 0;
    let mut used: usize = 0;
    let mut at: usize = 0;
    // No `for`: how far a turn goes on in the list is what it reads there.
    while at < list.len() {
        let leading = number_reader::number_at(list, at)?;
        if used == 65536 {
            return None;
        }
        last = last.wrapping_add(leading.number);
        put_count(capture, used, last);
        used += 2;
        at += leading.taken;
    }
    Some(used)
}

// `capture` becomes the capture whose list of runs is `list`. With it comes its used length.
pub fn capture_of(list: &[u8], capture: &mut [u8]) -> Result<usize, RestoreError>
    ensures { Restores list.now capture.old (say_of result) capture.new }
{
    outcome::wipe(capture, 65536);
    if list.len() > 98304 {
        return Err(RestoreError::WrongIncoming);
    }
    if capture.len() != 65536 {
        return Err(RestoreError::WrongOutgoing);
    }
    let Some(used) = put_counts(list, capture) else {
        outcome::clear(capture);
        return Err(RestoreError::WrongNumber);
    };
    Ok(used)
}
