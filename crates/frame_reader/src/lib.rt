// Reading a Data Frame (ISO/IEC 16449, clause 16; document 02, §14).
#![tactic(auto)]

ghost use Rattle.std.specs.Prelude.{◌≡◌, length, take};
ghost use Rattle.outcome.specs.Say.{outcome};
ghost use Rattle.codeword.specs.Nearest.{is_codeword};
ghost use Rattle.data_frame.specs.DataFrame.{reserved_are_zero, fields_of};
ghost use Rattle.frame_reader.specs.Reading.{reading, refusal_of, say_of};

use data_frame::{Copyright, Fields, SectorNumber, ZoneType};
use outcome::Refusal;

// Why a frame is refused.
#[derive(Clone, Copy, Debug, PartialEq, Eq)]
pub enum ReadFrameError {
    WrongIncoming,
    WrongOutgoing,
    WrongIdentification,
    WrongEdc,
    ReservedBit,
}

impl Refusal for ReadFrameError {
    ghost refusal_of = { refusal_of };

    fn number(self) -> u8 {
        match self {
            ReadFrameError::WrongIncoming => 1,
            ReadFrameError::WrongOutgoing => 2,
            ReadFrameError::WrongIdentification => 28,
            ReadFrameError::WrongEdc => 29,
            ReadFrameError::ReservedBit => 30,
        }
    }
}

// Whether ID and IED are a codeword (16.2).
fn is_identified(frame: &[u8]) -> bool
    requires { length frame.now ≡ 2064 }
    ensures { result ≡ is_codeword 2 (take 6 frame.now) }
{
    word_sums::sums(&frame[..6]) == [0, 0]
}

// Whether b31, b30, b28 and b25 are ZERO (16.1).
fn reserved_are_zero(first: u8) -> bool
    ensures { result ≡ reserved_are_zero first }
{
    first & 0b1101_0010 == 0
}

// The fields that stand in a frame.
fn fields_of(frame: &[u8]) -> Fields
    requires { length frame.now ≡ 2064 }
    ensures { result ≡ fields_of frame.now }
{
    let first = frame[0];
    Fields {
        reflectivity: first / 32 % 2 == 1,
        zone: ZoneType(first / 8 % 2 == 1, first / 4 % 2 == 1),
        layer: first % 2 == 1,
        number: SectorNumber(frame[1], frame[2], frame[3]),
        copyright: Copyright(frame[6], frame[7], frame[8], frame[9], frame[10], frame[11]),
    }
}

// Reads a frame: its fields come back, and its Main Data goes into `main`.
pub fn read_frame(frame: &[u8], main: &mut [u8]) -> Result<Fields, ReadFrameError>
    ensures { outcome (say_of result) main.new ≡ reading frame.now main.old }
{
    if frame.len() != 2064 {
        outcome::wipe(main, 2048);
        return Err(ReadFrameError::WrongIncoming);
    }
    if main.len() != 2048 {
        return Err(ReadFrameError::WrongOutgoing);
    }
    if !is_identified(frame) {
        outcome::wipe(main, 2048);
        return Err(ReadFrameError::WrongIdentification);
    }
    if !frame_edc::holds(frame) {
        outcome::wipe(main, 2048);
        return Err(ReadFrameError::WrongEdc);
    }
    if !reserved_are_zero(frame[0]) {
        outcome::wipe(main, 2048);
        return Err(ReadFrameError::ReservedBit);
    }
    outcome::copy(&frame[12..2060], main);
    Ok(fields_of(frame))
}
