// Data Frames for callers in other languages: fields as thirteen numbers, b29, b27, b26, b24, the bytes of the sector number, and CPR_MAI, in and out.
#![tactic(auto)]

ghost use Rattle.std.specs.Prelude.{◌≡◌, []};
ghost use Rattle.outcome.specs.Say.{outcome};
ghost use Rattle.data_frame.specs.DataFrame.{values, fields_from};
ghost use Rattle.frame_reader.specs.Reading as reads;
ghost use Rattle.frame_writer.specs.Framing as writes;
ghost use Rattle.carrying.specs.Carry as carries;
ghost use Rattle.told.specs.Told.{Tells, Told};

use address::HeaderTime;
use data_frame::{Copyright, Fields, SectorNumber, ZoneType};
use frame_reader::ReadFrameError;
use outcome::Refusal;

// ---- fields

// ONE is 1.
fn numbers_of(f: Fields) -> [u64; 13]
    ensures { result ≡ values f }
{
    let n = f.number;
    let c = f.copyright;
    [
        u64::from(f.reflectivity),
        u64::from(f.zone.0),
        u64::from(f.zone.1),
        u64::from(f.layer),
        u64::from(n.0),
        u64::from(n.1),
        u64::from(n.2),
        u64::from(c.0),
        u64::from(c.1),
        u64::from(c.2),
        u64::from(c.3),
        u64::from(c.4),
        u64::from(c.5),
    ]
}

// Of the first four numbers 1 is a ONE.
fn fields_from(v: [u8; 13]) -> Fields
    ensures { result ≡ fields_from v }
{
    Fields {
        reflectivity: v[0] == 1,
        zone: ZoneType(v[1] == 1, v[2] == 1),
        layer: v[3] == 1,
        number: SectorNumber(v[4], v[5], v[6]),
        copyright: Copyright(v[7], v[8], v[9], v[10], v[11], v[12]),
    }
}

// ---- answers

// With a frame that is read come its fields.
fn tell_read(a: Result<Fields, ReadFrameError>, values: &mut [u64; 13]) -> u8
    ensures { Tells 13 (reads.say_of a) result values.new }
{
    match a {
        Ok(f) => told::tell(0, numbers_of(f), values),
        Err(e) => told::tell(e.number(), [0; 13], values),
    }
}

// ---- entries

pub fn read(frame: &[u8], main: &mut [u8], values: &mut [u64; 13]) -> u8
    ensures { Told 13 (λ say. outcome say main.new ≡ reads.reading frame.now main.old) result values.new }
{
    let answer = frame_reader::read_frame(frame, main);
    tell_read(answer, values)
}

pub fn write(fields: &[u8; 13], main: &[u8], out: &mut [u8]) -> u8
    ensures { Told 0 (λ say. writes.Frames (fields_from fields.now) main.now out.old say out.new) result [] }
{
    let given = fields_from(*fields);
    told::number(frame_writer::write_frame(given, main, out))
}

pub fn carry(frames: &[u8], start: HeaderTime, out: &mut [u8]) -> u8
    ensures { Told 0 (λ say. carries.Carries frames.now start out.old say out.new) result [] }
{
    told::number(carrying::carry(frames, start, out))
}
