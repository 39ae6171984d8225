// Reading the 96 Control bytes of a Section (clause 22).
#![tactic(auto)]

ghost use Rattle.std.specs.Prelude.{◌≡◌, ◌+◌, ◌/◌, ◌%◌, ◌≤◌, length, take, drop};
ghost use Rattle.bits.specs.Bits.{number, pack};
ghost use Rattle.control_reader.specs.Reading.{q_of, crc_holds, refusal_of, say_of, Reads};

use control::Control;
use outcome::Refusal;

// Why no fields are read.
#[derive(Clone, Copy, Debug, PartialEq, Eq)]
pub enum ReadControlError {
    WrongIncoming,
    WrongCrc,
    UnknownMode,
    NotAllowed,
}

impl Refusal for ReadControlError {
    ghost refusal_of = { refusal_of };

    fn number(self) -> u8 {
        match self {
            ReadControlError::WrongIncoming => 1,
            ReadControlError::WrongCrc => 16,
            ReadControlError::UnknownMode => 17,
            ReadControlError::NotAllowed => 18,
        }
    }
}

// The q bit of a Control byte.
fn q_bit(b: u8) -> u8
    ensures { result ≡ b / 64 % 2 }
{
    b / 64 % 2
}

// Eight q bits, the first the most significant.
fn q_byte(bytes: &[u8], at: usize) -> u8
    requires { at + 8 ≤ length bytes.now }
    ensures { result ≡ number 0 (take 8 (drop at (q_of bytes.now))) }
{
    let mut n = 0;
    for j in 0..8 {
        n = n * 2 + q_bit(bytes[at + j]);
    }
    n
}

// The Control, q-Mode and q-Data fields.
fn field_bytes(bytes: &[u8]) -> [u8; 10]
    requires { length bytes.now ≡ 96 }
    ensures { result ≡ pack 10 (q_of bytes.now) }
{
    let mut fields = [0; 10];
    for (i, field) in fields.iter_mut().enumerate() {
        *field = q_byte(bytes, 8 * i);
    }
    fields
}

// Whether the CRC field is that of the fields before it.
fn crc_right(bytes: &[u8], q: &[u8; 10]) -> bool
    requires { (length bytes.now ≡ 96) × (q.now ≡ pack 10 (q_of bytes.now)) }
    ensures { result ≡ crc_holds bytes.now }
{
    crc::parity(q) == [q_byte(bytes, 80), q_byte(bytes, 88)]
}

// 96 Control bytes become fields. The CRC is looked at before any field.
pub fn read_control(bytes: &[u8]) -> Result<Control, ReadControlError>
    ensures { Reads bytes.now (say_of result) }
{
    if bytes.len() != 96 {
        return Err(ReadControlError::WrongIncoming);
    }
    let q = field_bytes(bytes);
    if !crc_right(bytes, &q) {
        return Err(ReadControlError::WrongCrc);
    }
    if control_checks::unknown_mode(q[0] % 16) {
        return Err(ReadControlError::UnknownMode);
    }
    let flag = bytes[0] / 128 == 1;
    let fields = control_fields::fields_in(flag, &q);
    if !control_checks::is_written(fields, bytes) {
        return Err(ReadControlError::NotAllowed);
    }
    Ok(fields)
}
