// A capture kept as a list of run lengths (document 02, §5).
#![tactic(auto)]

ghost use Rattle.std.specs.Prelude.{◌≡◌};
ghost use Rattle.outcome.specs.Say.{outcome};
ghost use Rattle.captures.specs.Kept.{keeping};
ghost use Rattle.keeping.specs.Answers.{refusal_of, say_of};
ghost use Rattle.keeping.specs.Inner.Wrote.{Ready, Wrote};

use number_groups::put_number;
use outcome::Refusal;

// Why no list is made.
#[derive(Clone, Copy, Debug, PartialEq, Eq)]
pub enum ListError {
    WrongIncoming,
    WrongOutgoing,
}

impl Refusal for ListError {
    ghost refusal_of = { refusal_of };

    fn number(self) -> u8 {
        match self {
            ListError::WrongIncoming => 1,
            ListError::WrongOutgoing => 2,
        }
    }
}

// The runs of a right capture, put into a list of zeros; the answer is the used length. The first count is its own distance from 0.
fn put_runs(capture: &[u8], list: &mut [u8]) -> usize
    requires { Ready capture.now list.old }
    ensures { Wrote capture.now result list.new }
{
    let mut last: u16 = 0;
    let mut used: usize = 0;
    for i in 0..capture.len() / 2 {
        let count = edge_counts::count_at(capture, i);
        let run = edge_counts::ticks(last, count);
        used = put_number(list, used, run);
        last = count;
    }
    used
}

// `list` becomes the list of the capture's runs: the first count, and then each distance, in groups of seven bits. With it comes its used length.
pub fn runs_of(capture: &[u8], list: &mut [u8]) -> Result<usize, ListError>
    ensures { outcome (say_of result) list.new ≡ keeping capture.now list.old }
{
    outcome::wipe(list, 98304);
    if !edge_counts::is_capture(capture) {
        return Err(ListError::WrongIncoming);
    }
    if list.len() != 98304 {
        return Err(ListError::WrongOutgoing);
    }
    Ok(put_runs(capture, list))
}
