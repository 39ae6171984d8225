// The fields that ten bytes of a q-channel can stand for, whether clause 22 allows them or not.
#![tactic(auto)]

ghost use Rattle.std.specs.Prelude.{◌≡◌};
ghost use Rattle.control_fields.specs.Found.{item_in, digits_in, data_in, fields_in};

use control::{Control, Copying, Item, QData};
use control_time::ControlTime;

// An item of the table of contents, by its POINTER field.
#[tactic(auto, unfolding(crate::specs::Found::item_in))]
fn item_in(q: &[u8; 10]) -> Item
    ensures { result ≡ item_in q.now }
{
    let at = ControlTime::new(q[7], q[8], q[9]);
    match q[2] {
        0xA0 => Item::FirstTrack(q[7]),
        0xA1 => Item::LastTrack(q[7]),
        0xA2 => Item::LeadOutTrack(at),
        track => Item::Track(track, at),
    }
}

// The 13 digits of a Catalog Number.
fn digits_in(q: &[u8; 10]) -> u64
    ensures { result ≡ digits_in q.now }
{
    u64::from_be_bytes([0, q[1], q[2], q[3], q[4], q[5], q[6], q[7]]) / 16
}

fn data_in(mode: u8, q: &[u8; 10]) -> QData
    ensures { result ≡ data_in mode q.now }
{
    let relative = ControlTime::new(q[3], q[4], q[5]);
    let absolute = ControlTime::new(q[7], q[8], q[9]);
    match (mode, q[1]) {
        (2, _) => QData::CatalogNumber(digits_in(q), q[9]),
        (_, 0) => QData::LeadIn(item_in(q), relative),
        (_, 0xAA) => QData::LeadOut(relative, absolute),
        (_, tno) => QData::UserData(tno, q[2], relative, absolute),
    }
}

// The fields of ten bytes beside a p bit.
#[tactic(auto, unfolding(crate::specs::Found::fields_in))]
pub fn fields_in(flag: bool, q: &[u8; 10]) -> Control
    ensures { result ≡ fields_in flag q.now }
{
    Control {
        flag,
        copying: Copying::from(q[0] / 16),
        q_data: data_in(q[0] % 16, q),
    }
}
