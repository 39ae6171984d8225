// Data Frames. Fields are given and told as `frame_told` has them.
ghost use Rattle.std.specs.Prelude.{◌≡◌, []};
ghost use Rattle.outcome.specs.Say.{outcome};
ghost use Rattle.data_frame.specs.DataFrame.{fields_from};
ghost use Rattle.frame_reader.specs.Reading.{reading};
ghost use Rattle.frame_writer.specs.Framing.{Frames};
ghost use Rattle.carrying.specs.Carry.{Carries};
ghost use Rattle.told.specs.Told.{Told};

use address::HeaderTime;

#[unsafe(no_mangle)]
pub extern "C" fn road_read_frame(frame: &[u8], main: &mut [u8], values: &mut [u64; 13]) -> u8
    ensures { Told 13 (λ say. outcome say main.new ≡ reading frame.now main.old) result values.new }
{
    frame_told::read(frame, main, values)
}

#[unsafe(no_mangle)]
pub extern "C" fn road_write_frame(fields: &[u8; 13], main: &[u8], out: &mut [u8]) -> u8
    ensures { Told 0 (λ say. Frames (fields_from fields.now) main.now out.old say out.new) result [] }
{
    frame_told::write(fields, main, out)
}

#[unsafe(no_mangle)]
pub extern "C" fn road_carry(frames: &[u8], minute: u8, second: u8, frame: u8, out: &mut [u8]) -> u8
    ensures { Told 0 (λ say. Carries frames.now (record { 0 = minute; 1 = second; 2 = frame }) out.old say out.new) result [] }
{
    frame_told::carry(frames, HeaderTime::new(minute, second, frame), out)
}
