// Reading a Section.
ghost use Rattle.std.specs.Prelude.{◌≡◌, []};
ghost use Rattle.section_reader.specs.ReadSay.{read_out, section_read};
ghost use Rattle.told.specs.Told.{Told};

#[unsafe(no_mangle)]
pub extern "C" fn road_read_section(channel: &[u8], bytes: &mut [u8], marks: &mut [u8]) -> u8
    ensures { Told 0 (λ say. read_out say bytes.new marks.new ≡ section_read channel.now bytes.old marks.old) result [] }
{
    told::number(section_reader::read_section(channel, bytes, marks))
}
