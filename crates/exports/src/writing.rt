// Writing a Sector.
ghost use Rattle.std.specs.Prelude.{◌≡◌, []};
ghost use Rattle.writer.specs.Write.{Writes};
ghost use Rattle.told.specs.Told.{Told};

use address::HeaderTime;

#[unsafe(no_mangle)]
pub extern "C" fn road_write(
    mode: u8,
    minute: u8,
    second: u8,
    frame: u8,
    user: &[u8],
    out: &mut [u8],
) -> u8
    ensures { Told 0 (λ say. Writes mode (record { 0 = minute; 1 = second; 2 = frame }) user.now out.old say out.new) result [] }
{
    told::number(writer::write(mode, HeaderTime::new(minute, second, frame), user, out))
}
