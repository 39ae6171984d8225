// Scrambling, and F1-frames.
ghost use Rattle.std.specs.Prelude.{◌≡◌, []};
ghost use Rattle.outcome.specs.Say.{outcome};
ghost use Rattle.f1_frames.specs.Frames.{cutting, joining};
ghost use Rattle.scrambling.specs.Scramble.{scrambling};
ghost use Rattle.told.specs.Told.{Told};

use told::number;

#[unsafe(no_mangle)]
pub extern "C" fn road_scramble(sector: &[u8], out: &mut [u8]) -> u8
    ensures { Told 0 (λ say. outcome say out.new ≡ scrambling sector.now out.old) result [] }
{
    number(scrambling::scramble(sector, out))
}

#[unsafe(no_mangle)]
pub extern "C" fn road_cut(scrambled: &[u8], out: &mut [u8]) -> u8
    ensures { Told 0 (λ say. outcome say out.new ≡ cutting scrambled.now out.old) result [] }
{
    number(f1_frames::cut(scrambled, out))
}

#[unsafe(no_mangle)]
pub extern "C" fn road_join(frames: &[u8], out: &mut [u8]) -> u8
    ensures { Told 0 (λ say. outcome say out.new ≡ joining frames.now out.old) result [] }
{
    number(f1_frames::join(frames, out))
}
