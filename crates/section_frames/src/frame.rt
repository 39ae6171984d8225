// Channel Frames: a Sync Header, 33 words each after its Merging bits, and the Merging bits before the next Sync Header.
ghost use Rattle.std.specs.Prelude.{◌≡◌, length};
ghost use Rattle.traces.specs.Traces.{Within};
ghost use Rattle.section_state.specs.Tallies.{farthest};
ghost use Rattle.section_frames.specs.Frames.{FramesDone};
ghost use Rattle.section_frames.specs.Inner.BufferBits.{WordsDue, WordsInked};
ghost use Rattle.section_frames.specs.Inner.FrameSteps.{FrameDue, FrameDone};

use crate::pen::Pen;
use crate::symbols;
use traces::Tally;

// Where a writer stands between two frames.
#[derive(Clone, Copy, Debug, PartialEq, Eq)]
pub struct Writing {
    pub pen: Pen,
    pub tally: Tally,
}

// 33 words of 17 bits.
fn write_words(out: &mut [u8], from: Pen, words: [u32; 33]) -> Pen
    requires { WordsDue out.old from words }
    ensures { WordsInked out.old from words out.new result }
{
    let mut p = from;
    for word in words {
        p = p.put(out, word, 17);
    }
    p
}

// Frame f: a Sync Header, and what is chosen for the frame.
fn write_frame(out: &mut [u8], w: Writing, frames: &[u8], control: &[u8], f: usize) -> Writing
    requires { FrameDue out.old w frames.now control.now f }
    ensures { FrameDone out.old w frames.now control.now f out.new result }
{
    let symbols = symbols::symbols_of(frames, control, f);
    let chosen = choosing::choose_frame(w.tally, symbols);
    let headed = w.pen.put(out, 0b100000000001000000000010, 24);
    let worded = write_words(out, headed, chosen.words);
    let tailed = worded.put(out, chosen.tail, 3);
    Writing {
        pen: tailed,
        tally: chosen.after,
    }
}

// The 98 frames of a Section.
pub(crate) fn write_all(out: &mut [u8], t: Tally, frames: &[u8], control: &[u8]) -> Tally
    requires { (length out.old ≡ 7203) × (length frames.now ≡ 3136) × (length control.now ≡ 96) × Within farthest t }
    ensures { FramesDone t frames.now control.now out.new result }
{
    let mut s = Writing {
        pen: Pen {
            at: 0,
            held: 0,
            count: 0,
        },
        tally: t,
    };
    for f in 0..98 {
        s = write_frame(out, s, frames, control, f);
    }
    s.tally
}
