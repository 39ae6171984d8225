// What reading Control bytes asks of their fields (clause 22): a q-Mode that is known, and that the bytes are those of allowed fields.
#![tactic(auto)]

ghost use Rattle.std.specs.Prelude.{◌≡◌, not, ◌&&◌, ◌||◌, eqb};
ghost use Rattle.lists.specs.Same.{same};
ghost use Rattle.control.specs.Fields.{allowed};
ghost use Rattle.control.specs.Channels.{control_bytes};

use control::Control;

// A q-Mode other than 1 or 2.
pub fn unknown_mode(mode: u8) -> bool
    ensures { result ≡ not (eqb mode 1 || eqb mode 2) }
{
    !matches!(mode, 1 | 2)
}

// `==`, as `lists::specs::Same` has it. Bytes are compared and not fields, since p and w bits and the CRC are asked too.
#[tactic(auto, using(crate::proofs::Comparing::pointwise_same))]
fn same_bytes(a: &[u8], b: &[u8]) -> bool
    ensures { result ≡ same a.now b.now }
{
    a == b
}

// Whether clause 22 allows the fields and these are their bytes.
pub fn is_written(fields: Control, bytes: &[u8]) -> bool
    ensures { result ≡ (allowed fields && same (control_bytes fields) bytes.now) }
{
    let mut made = [0u8; 96];
    control_writer::write_control(fields, &mut made).is_ok() && same_bytes(&made, bytes)
}
