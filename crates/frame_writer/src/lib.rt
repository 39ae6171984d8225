// Writing a Data Frame (ISO/IEC 16449, clause 16; document 02, §14).
#![tactic(auto)]

ghost use Rattle.std.specs.Prelude.{◌≡◌, ◌++◌, length};
ghost use Rattle.frame_edc.specs.FrameEdc.{edc};
ghost use Rattle.data_frame.specs.DataFrame.{information};
ghost use Rattle.frame_writer.specs.Framing.{Frames, refusal_of, say_of};
ghost use Rattle.frame_writer.specs.Inner.Made.{Front};

use data_frame::Fields;
use outcome::Refusal;

// Why nothing is written.
#[derive(Clone, Copy, Debug, PartialEq, Eq)]
pub enum WriteFrameError {
    WrongIncoming,
    WrongOutgoing,
}

impl Refusal for WriteFrameError {
    ghost refusal_of = { refusal_of };

    fn number(self) -> u8 {
        match self {
            WriteFrameError::WrongIncoming => 1,
            WriteFrameError::WrongOutgoing => 2,
        }
    }
}

// Sector Information (16.1): b29, b27, b26 and b24. ONE is 1.
fn information(fields: Fields) -> u8
    ensures { result ≡ information fields }
{
    let b29 = u8::from(fields.reflectivity);
    let b27 = u8::from(fields.zone.0);
    let b26 = u8::from(fields.zone.1);
    let b24 = u8::from(fields.layer);
    b29 * 32 + b27 * 8 + b26 * 4 + b24
}

// ID, IED and CPR_MAI: the first twelve bytes.
fn front_of(fields: Fields) -> [u8; 12]
    ensures { Front fields result }
{
    let n = fields.number;
    let c = fields.copyright;
    let id = [information(fields), n.0, n.1, n.2];
    let p = word_parity::parity_of_two(&id);
    [
        id[0], id[1], id[2], id[3], p[0], p[1], c.0, c.1, c.2, c.3, c.4, c.5,
    ]
}

// The front, the Main Data and the EDC of both go into a frame.
fn lay(front: [u8; 12], main: &[u8], frame: &mut [u8])
    requires { (length front ≡ 12) × (length main.now ≡ 2048) × (length frame.old ≡ 2064) }
    ensures { frame.new ≡ (front ++ main.now) ++ edc (front ++ main.now) }
{
    laying::lay(frame, 0, &front, main);
    let check = frame_edc::parity(&frame[0..2060]);
    frame[2060..2064].copy_from_slice(&check);
}

// Writes the Data Frame with these fields and Main Data, or refuses.
pub fn write_frame(fields: Fields, main: &[u8], out: &mut [u8]) -> Result<(), WriteFrameError>
    ensures { Frames fields main.now out.old (say_of result) out.new }
{
    if main.len() != 2048 {
        outcome::wipe(out, 2064);
        return Err(WriteFrameError::WrongIncoming);
    }
    if out.len() != 2064 {
        return Err(WriteFrameError::WrongOutgoing);
    }
    lay(front_of(fields), main, out);
    Ok(())
}
