// Writing the 96 Control bytes of a Section (clause 22).
#![tactic(auto)]

ghost use Rattle.std.specs.Prelude.{◌≡◌, ◌+◌, ◌*◌, ◌∷◌};
ghost use Rattle.outcome.specs.Say.{outcome};
ghost use Rattle.bits.specs.Bits.{unpack};
ghost use Rattle.control.specs.Channels.{control_field, q_mode};
ghost use Rattle.control.specs.FieldBytes.{data_bytes};
ghost use Rattle.control_writer.specs.Inner.Coded.{coded};
ghost use Rattle.control_writer.specs.Writing.{refusal_of, say_of, writing};

use control::{Control, Copying, QData};
use outcome::Refusal;

// Why no Control bytes are written.
#[derive(Clone, Copy, Debug, PartialEq, Eq)]
pub enum WriteControlError {
    WrongOutgoing,
    NotAllowed,
}

impl Refusal for WriteControlError {
    ghost refusal_of = { refusal_of };

    fn number(self) -> u8 {
        match self {
            WriteControlError::WrongOutgoing => 2,
            WriteControlError::NotAllowed => 18,
        }
    }
}

// The q-Mode field (22.3.2).
fn q_mode(q_data: QData) -> u8
    ensures { result ≡ q_mode q_data }
{
    match q_data {
        QData::UserData(..) | QData::LeadOut(..) | QData::LeadIn(..) => 1,
        QData::CatalogNumber(..) => 2,
    }
}

// One byte of the Control and q-Mode fields, and those of the q-Data field.
fn field_bytes(copying: Copying, q_data: QData) -> [u8; 10]
    ensures { result ≡ (control_field copying * 16 + q_mode q_data) ∷ data_bytes q_data }
{
    let first = u8::from(copying) * 16 + q_mode(q_data);
    control_data::data_bytes(first, q_data)
}

// The q-channel: the fields, and the CRC over them (22.3.6).
fn q_bytes(copying: Copying, q_data: QData) -> [u8; 12]
    ensures { unpack result ≡ coded ((control_field copying * 16 + q_mode q_data) ∷ data_bytes q_data) }
{
    let fields = field_bytes(copying, q_data);
    let mut q = [0; 12];
    q[..10].copy_from_slice(&fields);
    q[10..].copy_from_slice(&crc::parity(&fields));
    q
}

// The fields become 96 Control bytes.
pub fn write_control(fields: Control, out: &mut [u8]) -> Result<(), WriteControlError>
    ensures { outcome (say_of result) out.new ≡ writing fields out.old }
{
    if out.len() != 96 {
        return Err(WriteControlError::WrongOutgoing);
    }
    if !control::is_allowed(fields) {
        out.fill(0);
        return Err(WriteControlError::NotAllowed);
    }
    let q = q_bytes(fields.copying, fields.q_data);
    out.copy_from_slice(&control_spread::spread(fields.flag, q));
    Ok(())
}
