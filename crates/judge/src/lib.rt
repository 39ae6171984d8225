// Judging a Sector: it passes with its mode and address, or the first fault in the order of the rules is the answer.
#![tactic(auto)]

ghost use Rattle.std.specs.Prelude.{◌≡◌, length};
ghost use Rattle.sector.specs.Layout.{time_of};
ghost use Rattle.judge.specs.Judging.{judging_mode01, judging_mode00, by_mode, judging, refusal_of, say_of};

use address::HeaderTime;
use outcome::Refusal;
use rspc::Parity;

// What comes with a Sector that passes.
#[derive(Clone, Copy)]
pub struct Passed {
    pub mode: u8,
    pub time: HeaderTime,
}

// The first fault; with a codeword that fails comes its number.
#[derive(Clone, Copy, Debug, PartialEq, Eq)]
pub enum JudgeError {
    WrongIncoming,
    WrongSync,
    UnknownMode,
    WrongAddress,
    WrongEdc,
    WrongIntermediate,
    WrongP(usize),
    WrongQ(usize),
    WrongFiller,
}

impl Refusal for JudgeError {
    ghost refusal_of = { refusal_of };

    fn number(self) -> u8 {
        match self {
            JudgeError::WrongIncoming => 1,
            JudgeError::UnknownMode => 3,
            JudgeError::WrongAddress => 4,
            JudgeError::WrongSync => 10,
            JudgeError::WrongEdc => 11,
            JudgeError::WrongIntermediate => 12,
            JudgeError::WrongP(_) => 13,
            JudgeError::WrongQ(_) => 14,
            JudgeError::WrongFiller => 15,
        }
    }
}

fn judge_mode01(s: &[u8], time: HeaderTime) -> Result<Passed, JudgeError>
    requires { (length s.now ≡ 2352) × (time ≡ time_of s.now) }
    ensures { say_of result ≡ judging_mode01 s.now }
{
    if !edc_division::holds(&s[..2068]) {
        return Err(JudgeError::WrongEdc);
    }
    if !sector::intermediate_right(s) {
        return Err(JudgeError::WrongIntermediate);
    }
    if let Some(p) = failing::first_failing(Parity::P, s) {
        return Err(JudgeError::WrongP(p));
    }
    if let Some(q) = failing::first_failing(Parity::Q, s) {
        return Err(JudgeError::WrongQ(q));
    }
    Ok(Passed { mode: 1, time })
}

fn judge_mode00(s: &[u8], time: HeaderTime) -> Result<Passed, JudgeError>
    requires { time ≡ time_of s.now }
    ensures { say_of result ≡ judging_mode00 s.now }
{
    if !sector::filler_right(s) {
        return Err(JudgeError::WrongFiller);
    }
    Ok(Passed { mode: 0, time })
}

fn judge_by_mode(mode: u8, s: &[u8], time: HeaderTime) -> Result<Passed, JudgeError>
    requires { (length s.now ≡ 2352) × (time ≡ time_of s.now) }
    ensures { say_of result ≡ by_mode mode s.now }
{
    match mode {
        0 => judge_mode00(s, time),
        1 => judge_mode01(s, time),
        _ => Ok(Passed { mode, time }),
    }
}

pub fn judge(s: &[u8]) -> Result<Passed, JudgeError>
    ensures { say_of result ≡ judging s.now }
{
    if s.len() != 2352 {
        return Err(JudgeError::WrongIncoming);
    }
    if !sector::sync_right(s) {
        return Err(JudgeError::WrongSync);
    }
    let mode = s[15];
    if 2 < mode {
        return Err(JudgeError::UnknownMode);
    }
    let time = HeaderTime::new(s[12], s[13], s[14]);
    if !time.in_range() {
        return Err(JudgeError::WrongAddress);
    }
    judge_by_mode(mode, s, time)
}
