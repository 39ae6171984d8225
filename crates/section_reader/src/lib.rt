// Reading whole Sections (clause 19): Channel bits become bytes and marks.
#![tactic(auto)]

ghost use Rattle.std.specs.Prelude.{◌≡◌, length};
ghost use Rattle.bits.specs.Bits.{unpack};
ghost use Rattle.section_reader.specs.Reading.{bytes_read, marks_read};
ghost use Rattle.section_reader.specs.ReadSay.{refusal_of, say_of, read_out, section_read};
ghost use Rattle.section_reader.specs.Inner.{FrameDue, FrameTaken};

use outcome::Refusal;

// Why a Section is not read.
#[derive(Clone, Copy, Debug, PartialEq, Eq)]
pub enum ReadSectionError {
    WrongIncoming,
    WrongOutgoing,
}

impl Refusal for ReadSectionError {
    ghost refusal_of = { refusal_of };

    fn number(self) -> u8 {
        match self {
            ReadSectionError::WrongIncoming => 1,
            ReadSectionError::WrongOutgoing => 2,
        }
    }
}

// Frame f into its places: as it is read, or as lost where it has no Sync Header.
fn take_frame(
    channel: &[u8],
    table: &[u16; 256],
    guide: &[u8; 1351],
    f: usize,
    bytes: &mut [u8],
    marks: &mut [u8],
)
    requires { FrameDue channel.now table.now guide.now f bytes.old marks.old }
    ensures { FrameTaken channel.now f bytes.new marks.new }
{
    let Some(()) = channel_frame::read_one(channel, table, guide, f, bytes, marks) else {
        word_marks::lose_frame(bytes, marks);
        return;
    };
}

// Buffers of the right lengths: frame by frame, and a lost one costs no other.
fn read_frames(channel: &[u8], bytes: &mut [u8], marks: &mut [u8])
    requires { (length channel.now ≡ 7203) × (length bytes.old ≡ 3234) × (length marks.old ≡ 3234) }
    ensures { (bytes.new ≡ bytes_read (unpack channel.now)) × (marks.new ≡ marks_read (unpack channel.now)) }
{
    let table = words::all_words();
    let guide = words::guide();
    for f in 0..98 {
        let at = 33 * f;
        take_frame(
            channel,
            &table,
            &guide,
            f,
            &mut bytes[at..at + 33],
            &mut marks[at..at + 33],
        );
    }
}

// 7,203 bytes of Channel bits become 3,234 bytes and 3,234 marks, frame by frame, the Control byte first.
pub fn read_section(
    channel: &[u8],
    bytes: &mut [u8],
    marks: &mut [u8],
) -> Result<(), ReadSectionError>
    ensures { read_out (say_of result) bytes.new marks.new ≡ section_read channel.now bytes.old marks.old }
{
    if channel.len() != 7203 {
        outcome::wipe(bytes, 3234);
        outcome::wipe(marks, 3234);
        return Err(ReadSectionError::WrongIncoming);
    }
    if bytes.len() != 3234 {
        outcome::wipe(marks, 3234);
        return Err(ReadSectionError::WrongOutgoing);
    }
    if marks.len() != 3234 {
        outcome::wipe(bytes, 3234);
        return Err(ReadSectionError::WrongOutgoing);
    }
    read_frames(channel, bytes, marks);
    Ok(())
}
