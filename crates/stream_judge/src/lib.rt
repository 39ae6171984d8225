// Judging Sections that somebody else wrote (document 02, §12).
#![tactic(auto)]

ghost use Rattle.std.specs.Prelude.{◌≡◌, ◌*◌, ◌≤◌, length};
ghost use Rattle.stream_rules.specs.Judging.{right_length, judging};
ghost use Rattle.stream_judge.specs.Answers.{refusal_of, say_of};
ghost use Rattle.stream_judge.specs.Inner.{Finds};

use offence_tests::Offence;
use outcome::Refusal;

mod calm;
mod search;
mod taken;
mod words_listed;

// Why Sections are not accepted. An offence comes with the position of its bit, 0 to 518,616: for a run that of the ONE that comes too early or of the
// eleventh ZERO, for a Sync Header or a word that of its first bit.
#[derive(Clone, Copy, Debug, PartialEq, Eq)]
pub enum JudgeSectionsError {
    WrongIncoming,
    WrongRun(usize),
    WrongHeader(usize),
    WrongWord(usize),
}

impl Refusal for JudgeSectionsError {
    ghost refusal_of = { refusal_of };

    fn number(self) -> u8 {
        match self {
            JudgeSectionsError::WrongIncoming => 1,
            JudgeSectionsError::WrongRun(_) => 25,
            JudgeSectionsError::WrongHeader(_) => 26,
            JudgeSectionsError::WrongWord(_) => 27,
        }
    }
}

// One to nine whole Sections.
#[tactic(auto, unfolding(stream_rules::specs::Judging::right_length))]
fn is_right_length(l: usize) -> bool
    ensures { result ≡ right_length l }
{
    l % 7203 == 0 && 1 <= l / 7203 && l / 7203 <= 9
}

// The first offence of n Sections. Two quick passes say from which bit on it can be.
fn first_offence(channel: &[u8], n: usize) -> Option<(Offence, usize)>
    requires { (length channel.now ≡ 7203 * n) × (1 ≤ n) × (n ≤ 9) }
    ensures { Finds channel.now result }
{
    let calm = calm::calm_until(channel, n);
    let listed = words_listed::listed_until(channel, n);
    search::search_from(channel, n, calm.min(listed))
}

// One to nine whole Sections of 7,203 bytes, as if one more Sync Header followed the last.
pub fn judge_sections(channel: &[u8]) -> Result<(), JudgeSectionsError>
    ensures { say_of result ≡ judging channel.now }
{
    if !is_right_length(channel.len()) {
        return Err(JudgeSectionsError::WrongIncoming);
    }
    let Some((offence, place)) = first_offence(channel, channel.len() / 7203) else {
        return Ok(());
    };
    match offence {
        Offence::Run => Err(JudgeSectionsError::WrongRun(place)),
        Offence::Header => Err(JudgeSectionsError::WrongHeader(place)),
        Offence::Word => Err(JudgeSectionsError::WrongWord(place)),
    }
}
