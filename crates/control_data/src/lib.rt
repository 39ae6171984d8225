// The q-Data field of the q-channel in bytes (22.3.3 to 22.3.5).
#![tactic(auto)]

ghost use Rattle.std.specs.Prelude.{◌≡◌, ◌∷◌};
ghost use Rattle.control.specs.Channels.{item_fields};
ghost use Rattle.control.specs.FieldBytes.{data_bytes};

use control::{Item, QData};
use control_time::ControlTime;

// Behind a first byte: the q-Data field of an item of the table of contents (22.3.4).
fn item_bytes(first: u8, item: Item, t: ControlTime) -> [u8; 10]
    ensures { result ≡ first ∷ item_fields item t }
{
    match item {
        Item::Track(n, at) => [first, 0, n, t.0, t.1, t.2, 0, at.0, at.1, at.2],
        Item::FirstTrack(n) => [first, 0, 0xA0, t.0, t.1, t.2, 0, n, 0, 0],
        Item::LastTrack(n) => [first, 0, 0xA1, t.0, t.1, t.2, 0, n, 0, 0],
        Item::LeadOutTrack(at) => [first, 0, 0xA2, t.0, t.1, t.2, 0, at.0, at.1, at.2],
    }
}

// Behind a first byte: the q-Data field.
pub fn data_bytes(first: u8, q_data: QData) -> [u8; 10]
    ensures { result ≡ first ∷ data_bytes q_data }
{
    match q_data {
        QData::UserData(tno, index, t, at) => [
            first, tno, index, t.0, t.1, t.2, 0, at.0, at.1, at.2,
        ],
        QData::LeadOut(t, at) => [first, 0xAA, 0x01, t.0, t.1, t.2, 0, at.0, at.1, at.2],
        QData::LeadIn(item, t) => item_bytes(first, item, t),
        QData::CatalogNumber(n, frac) => {
            // 52 bits, and twelve ZEROs
            let [a, b, c, d, e, f, g, h] = (n % (1 << 52) << 12).to_be_bytes();
            [first, a, b, c, d, e, f, g, h, frac]
        }
    }
}
