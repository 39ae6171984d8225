// The fields in the Control bytes of a Section (clause 22), and whether clause 22 allows them.
#![tactic(auto)]

ghost use Rattle.std.specs.Prelude.{◌≡◌};
ghost use Rattle.control.specs.Channels.{control_field, copying_of};
ghost use Rattle.control.specs.Fields.{track_number, decimal_digits, allowed_item, allowed_data, allowed};

use control_time::ControlTime;

// Whether the user data of an Information Track may be copied (22.3.1).
#[derive(Clone, Copy, Debug, PartialEq, Eq)]
pub enum Copying {
    Forbidden,
    Permitted,
}

// What a Control field says of copying, also one that clause 22.3.1 does not have.
impl From<u8> for Copying {
    ghost from_gives = { λ field copying. copying ≡ copying_of field };

    fn from(field: u8) -> Copying {
        match field {
            0b0110 => Copying::Permitted,
            _ => Copying::Forbidden,
        }
    }
}

// The Control field (22.3.1).
impl From<Copying> for u8 {
    ghost from_gives = { λ copying field. field ≡ control_field copying };

    fn from(copying: Copying) -> u8 {
        match copying {
            Copying::Forbidden => 0b0100,
            Copying::Permitted => 0b0110,
        }
    }
}

// An item of the table of contents (22.3.4.2), by what its POINTER field points to.
#[derive(Clone, Copy, Debug, PartialEq, Eq)]
pub enum Item {
    // a track by its number, and where its first Section with Index 01 stands
    Track(u8, ControlTime),
    // the number of the first track
    FirstTrack(u8),
    // the number of the last track
    LastTrack(u8),
    // where the Lead-out Track begins
    LeadOutTrack(ControlTime),
}

// The q-Mode and q-Data fields (22.3.2 to 22.3.5).
#[derive(Clone, Copy, Debug, PartialEq, Eq)]
pub enum QData {
    // q-Mode 1 in the User Data Area: TNO, INDEX, relative and absolute time
    UserData(u8, u8, ControlTime, ControlTime),
    // q-Mode 1 in the Lead-out Area: relative and absolute time
    LeadOut(ControlTime, ControlTime),
    // q-Mode 1 in the Lead-in Area: an item of the table of contents, and relative time
    LeadIn(Item, ControlTime),
    // q-Mode 2: the Catalog Number's 13 digits, four bits each, and A-FRAC
    CatalogNumber(u64, u8),
}

// What the 96 Control bytes of a Section say.
#[derive(Clone, Copy, Debug, PartialEq, Eq)]
pub struct Control {
    // the p bit, which is a ONE in a Flag (22.2)
    pub flag: bool,
    pub copying: Copying,
    pub q_data: QData,
}

// 01 to 99.
#[tactic(auto, unfolding(crate::specs::Fields::track_number))]
fn is_track_number(n: u8) -> bool
    ensures { result ≡ track_number n }
{
    n != 0 && digits::two_digits(n, 99)
}

// Thirteen decimal digits of four bits each.
fn is_catalog_number(n: u64) -> bool
    ensures { result ≡ decimal_digits 13 n }
{
    (0..13).all(|i: u32| (n >> (4 * i)) % 16 < 10) && n >> 52 == 0
}

fn item_allowed(item: Item) -> bool
    ensures { result ≡ allowed_item item }
{
    match item {
        Item::Track(n, at) => is_track_number(n) && at.in_range(),
        Item::FirstTrack(n) | Item::LastTrack(n) => is_track_number(n),
        Item::LeadOutTrack(at) => at.in_range(),
    }
}

fn data_allowed(flag: bool, q_data: QData) -> bool
    ensures { result ≡ allowed_data flag q_data }
{
    match q_data {
        QData::UserData(tno, index, relative, absolute) => {
            is_track_number(tno)
                && digits::two_digits(index, 99)
                && relative.in_range()
                && absolute.in_range()
        }
        QData::LeadOut(relative, absolute) => relative.in_range() && absolute.in_range(),
        QData::LeadIn(item, relative) => !flag && item_allowed(item) && relative.in_range(),
        QData::CatalogNumber(n, frac) => is_catalog_number(n) && digits::two_digits(frac, 74),
    }
}

// Whether clause 22 allows these fields within one Section.
pub fn is_allowed(fields: Control) -> bool
    ensures { result ≡ allowed fields }
{
    data_allowed(fields.flag, fields.q_data)
}
