// Reading one Channel Frame of a Section (clause 19): 588 Channel bits become 33 bytes and 33 marks.
#![tactic(auto)]

ghost use Rattle.channel_frame.specs.FrameRead.{FrameRead};
ghost use Rattle.channel_frame.specs.Inner.{FrameWanted};

// A frame that is there, and room for its bytes and marks.
fn read_words(
    channel: &[u8],
    table: &[u16; 256],
    guide: &[u8; 1351],
    f: usize,
    bytes: &mut [u8],
    marks: &mut [u8],
) -> Option<()>
    requires { FrameWanted channel.now f bytes.old marks.old }
    ensures { FrameRead channel.now table.now guide.now f bytes.old marks.old bytes.new marks.new result }
{
    let at = 588 * f;
    let second = fields::field(channel, at + 12, 12);
    if fields::field(channel, at, 12) != 0b100000000001 {
        return None;
    }
    if second != 0b000000000010 {
        return None;
    }
    for i in 0..33 {
        let w = fields::field(channel, at + 27 + 17 * i, 14) as u16;
        let r = word_marks::read_word(table, guide, w, i);
        bytes[i] = r.byte;
        marks[i] = r.mark;
    }
    Some(())
}

// Frame f of a Section's 7,203 bytes becomes 33 bytes and 33 marks, the Control byte first, in any table of words and by any guide to it. None of that
// happens and both buffers stay as they are where no Sync Header stands at its beginning, there is no such frame, or no room for it.
#[tactic(auto, unfolding(crate::specs::FrameRead::missed), using(crate::proofs::Framing::none_read))]
pub fn read_one(
    channel: &[u8],
    table: &[u16; 256],
    guide: &[u8; 1351],
    f: usize,
    bytes: &mut [u8],
    marks: &mut [u8],
) -> Option<()>
    ensures { FrameRead channel.now table.now guide.now f bytes.old marks.old bytes.new marks.new result }
{
    if channel.len() != 7203 || f >= 98 || bytes.len() != 33 || marks.len() != 33 {
        return None;
    }
    read_words(channel, table, guide, f, bytes, marks)
}
