// Channel bits of whole Sections (clause 19): the writer.
#![tactic(auto)]

ghost use Rattle.std.specs.Prelude.{◌≡◌, ◌<◌, Err};
ghost use Rattle.calls.specs.Step.{step};
ghost use Rattle.traces.specs.Traces.{Within};
ghost use Rattle.section_state.specs.Carried.{most_sections};
ghost use Rattle.section_frames.specs.Frames.{section_end};
ghost use Rattle.section_writer.specs.State.{fresh, advanced};
ghost use Rattle.section_writer.specs.WriteSay.{refusal_of, say_of, written};

use outcome::Refusal;
use traces::Tally;

// The state of a Section writer: the DSV and the level after all that it wrote, and how many Sections that were. It is three numbers of any value, since a
// caller of `road_write_section` holds them and may begin with any.
#[derive(Clone, Copy, Debug, PartialEq, Eq)]
pub struct SectionWriter {
    pub dsv: i64,
    pub level: i64,
    pub sections: u64,
}

// Why a Section is not written.
#[derive(Clone, Copy, Debug, PartialEq, Eq)]
pub enum WriteSectionError {
    WrongIncoming,
    WrongOutgoing,
    ImpossibleState,
    DiscFull,
}

impl Refusal for WriteSectionError {
    ghost refusal_of = { refusal_of };

    fn number(self) -> u8 {
        match self {
            WriteSectionError::WrongIncoming => 1,
            WriteSectionError::WrongOutgoing => 2,
            WriteSectionError::DiscFull => 7,
            WriteSectionError::ImpossibleState => 9,
        }
    }
}

// The state after a step, and what the step answers.
#[derive(Clone, Copy, Debug, PartialEq, Eq)]
pub struct SectionStep {
    pub next: SectionWriter,
    pub answer: Result<(), WriteSectionError>,
}

// The state after one Section more.
fn advance(t: Tally, sections: u64) -> SectionWriter
    requires { Within section_end t × (sections < most_sections) }
    ensures { result ≡ advanced t.level t.plus t.minus sections }
{
    SectionWriter {
        dsv: section_state::dsv_after(t),
        level: section_state::level_after(t),
        sections: sections + 1,
    }
}

impl SectionWriter {
    // Nothing is written yet.
    pub fn new() -> Self
        ensures { result ≡ fresh }
    {
        SectionWriter {
            dsv: 0,
            level: -1,
            sections: 0,
        }
    }

    // A refused step hands back the state as it was.
    fn refuse(self, why: WriteSectionError) -> SectionStep
        ensures { (result.next ≡ self) × (result.answer ≡ Err why) }
    {
        SectionStep {
            next: self,
            answer: Err(why),
        }
    }

    // A Section of 98 frames of 32 bytes and of 96 Control bytes becomes 7,203 bytes of Channel bits.
    pub fn write(self, frames: &[u8], control: &[u8], out: &mut [u8]) -> SectionStep
        ensures { step (say_of result.answer) result.next out.new ≡ written self frames.now control.now out.old }
    {
        if frames.len() != 3136 || control.len() != 96 {
            outcome::wipe(out, 7203);
            return self.refuse(WriteSectionError::WrongIncoming);
        }
        if out.len() != 7203 {
            return self.refuse(WriteSectionError::WrongOutgoing);
        }
        let possible = section_state::is_possible(self.dsv, self.level, self.sections);
        let room = section_state::has_room(self.sections);
        if !possible {
            outcome::clear(out);
            return self.refuse(WriteSectionError::ImpossibleState);
        }
        if !room {
            outcome::clear(out);
            return self.refuse(WriteSectionError::DiscFull);
        }
        let before = section_state::begin(self.dsv, self.level);
        let after = section_frames::write_frames(out, before, frames, control);
        SectionStep {
            next: advance(after, self.sections),
            answer: Ok(()),
        }
    }
}
