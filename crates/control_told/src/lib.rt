// Writing and reading Control bytes for callers in other languages: fields as numbers, in and out.
#![tactic(auto)]

ghost use Rattle.std.specs.Prelude.{◌≡◌, [], ◌∷◌};
ghost use Rattle.outcome.specs.Say.{outcome};
ghost use Rattle.told.specs.Told.{placed, Tells, Told};
ghost use Rattle.control.specs.Values.{item_values, data_values, values_of};
ghost use Rattle.control_writer.specs.Writing as writes;
ghost use Rattle.control_reader.specs.Reading as reads;
ghost use Rattle.control_told.specs.Given.{item_given, data_given, fields_given};

use control::{Control, Copying, Item, QData};
use control_reader::ReadControlError;
use control_time::ControlTime;
use outcome::Refusal;

// ---- fields in

// The kinds come from C as numbers of which none is refused (`item_given`, `data_given` in specs/), so they are matched here and no `TryFrom` stands between.
#[tactic(auto, unfolding(crate::specs::Given::item_given))]
fn item_given(f: &[u8; 12]) -> Item
    ensures { result ≡ item_given f.now }
{
    let at = ControlTime::new(f[9], f[10], f[11]);
    match f[3] {
        1 => Item::FirstTrack(f[4]),
        2 => Item::LastTrack(f[4]),
        3 => Item::LeadOutTrack(at),
        _ => Item::Track(f[4], at),
    }
}

#[tactic(auto, unfolding(crate::specs::Given::data_given))]
fn data_given(digits: u64, f: &[u8; 12]) -> QData
    ensures { result ≡ data_given digits f.now }
{
    let relative = ControlTime::new(f[6], f[7], f[8]);
    let absolute = ControlTime::new(f[9], f[10], f[11]);
    match f[2] {
        3 => QData::CatalogNumber(digits, f[5]),
        2 => QData::LeadIn(item_given(f), relative),
        1 => QData::LeadOut(relative, absolute),
        _ => QData::UserData(f[4], f[5], relative, absolute),
    }
}

#[tactic(auto, unfolding(crate::specs::Given::fields_given))]
fn fields_given(digits: u64, f: &[u8; 12]) -> Control
    ensures { result ≡ fields_given digits f.now }
{
    Control {
        flag: f[0] == 1,
        copying: Copying::from(f[1]),
        q_data: data_given(digits, f),
    }
}

// The digits of a Catalog Number, and the other fields a byte each: p bit, Control field, kinds of the q-Data field and of the item, TNO or another track
// number, INDEX or A-FRAC, relative time, another time.
pub fn write(digits: u64, f: &[u8; 12], out: &mut [u8]) -> u8
    ensures { Told 0 (λ say. outcome say out.new ≡ writes.writing (fields_given digits f.now) out.old) result [] }
{
    told::number(control_writer::write_control(fields_given(digits, f), out))
}

// ---- fields out

fn item_values(p: u64, c: u64, t: ControlTime, item: Item) -> [u64; 11]
    ensures { result ≡ placed 11 (p ∷ c ∷ 2 ∷ t.0 ∷ t.1 ∷ t.2 ∷ item_values item) }
{
    let x = t.0 as u64;
    let y = t.1 as u64;
    let z = t.2 as u64;
    match item {
        Item::Track(n, at) => [
            p,
            c,
            2,
            x,
            y,
            z,
            0,
            n as u64,
            at.0 as u64,
            at.1 as u64,
            at.2 as u64,
        ],
        Item::FirstTrack(n) => [p, c, 2, x, y, z, 1, n as u64, 0, 0, 0],
        Item::LastTrack(n) => [p, c, 2, x, y, z, 2, n as u64, 0, 0, 0],
        Item::LeadOutTrack(at) => [
            p,
            c,
            2,
            x,
            y,
            z,
            3,
            at.0 as u64,
            at.1 as u64,
            at.2 as u64,
            0,
        ],
    }
}

fn data_values(p: u64, c: u64, q_data: QData) -> [u64; 11]
    ensures { result ≡ placed 11 (p ∷ c ∷ data_values q_data) }
{
    match q_data {
        QData::UserData(tno, index, t, at) => [
            p,
            c,
            0,
            tno as u64,
            index as u64,
            t.0 as u64,
            t.1 as u64,
            t.2 as u64,
            at.0 as u64,
            at.1 as u64,
            at.2 as u64,
        ],
        QData::LeadOut(t, at) => [
            p,
            c,
            1,
            t.0 as u64,
            t.1 as u64,
            t.2 as u64,
            at.0 as u64,
            at.1 as u64,
            at.2 as u64,
            0,
            0,
        ],
        QData::LeadIn(item, t) => item_values(p, c, t, item),
        QData::CatalogNumber(digits, frac) => [p, c, 3, digits, frac as u64, 0, 0, 0, 0, 0, 0],
    }
}

fn values_of(fields: Control) -> [u64; 11]
    ensures { result ≡ placed 11 (values_of fields) }
{
    let p = u64::from(fields.flag);
    let c = u64::from(u8::from(fields.copying));
    data_values(p, c, fields.q_data)
}

fn tell_read(answer: Result<Control, ReadControlError>, values: &mut [u64; 11]) -> u8
    ensures { Tells 11 (reads.say_of answer) result values.new }
{
    match answer {
        Ok(fields) => told::tell(0, values_of(fields), values),
        Err(e) => told::tell(e.number(), [0; 11], values),
    }
}

// The fields as the numbers that come back.
pub fn read(bytes: &[u8], values: &mut [u64; 11]) -> u8
    ensures { Told 11 (λ say. reads.Reads bytes.now say) result values.new }
{
    tell_read(control_reader::read_control(bytes), values)
}
