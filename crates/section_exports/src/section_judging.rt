// Judging Sections that somebody else wrote.
ghost use Rattle.std.specs.Prelude.{◌≡◌, get_or};
ghost use Rattle.stream_rules.specs.Judging.{judging};
ghost use Rattle.stream_judge.specs.Answers.{say_of, values_with};
ghost use Rattle.told.specs.Told.{Tells, Told};

use outcome::Refusal;
use stream_judge::JudgeSectionsError;
use told::tell;

// The bit position of an offence, and 0 where there is none.
fn position(e: JudgeSectionsError) -> u64
    ensures { result ≡ get_or (values_with e) 0 0 }
{
    match e {
        JudgeSectionsError::WrongIncoming => 0,
        JudgeSectionsError::WrongRun(p) => p as u64,
        JudgeSectionsError::WrongHeader(p) => p as u64,
        JudgeSectionsError::WrongWord(p) => p as u64,
    }
}

// With an offence comes its bit position.
fn tell_judged(answer: Result<(), JudgeSectionsError>, bit: &mut [u64; 1]) -> u8
    ensures { Tells 1 (say_of answer) result bit.new }
{
    match answer {
        Ok(()) => tell(0, [0], bit),
        Err(e) => tell(e.number(), [position(e)], bit),
    }
}

#[unsafe(no_mangle)]
pub extern "C" fn road_judge_sections(channel: &[u8], bit: &mut [u64; 1]) -> u8
    ensures { Told 1 (λ say. say ≡ judging channel.now) result bit.new }
{
    tell_judged(stream_judge::judge_sections(channel), bit)
}
