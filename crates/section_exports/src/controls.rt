// The Control bytes of a Section, and the CRC in them.
ghost use Rattle.std.specs.Prelude.{◌≡◌, []};
ghost use Rattle.outcome.specs.Say.{outcome};
ghost use Rattle.told.specs.Told.{Told};
ghost use Rattle.bits.specs.Bits.{unpack, pack};
ghost use Rattle.crc.specs.Crc.{crc};
ghost use Rattle.control_writer.specs.Writing.{writing};
ghost use Rattle.control_reader.specs.Reading.{Reads};
ghost use Rattle.control_told.specs.Given.{fields_given};

#[unsafe(no_mangle)]
pub extern "C" fn road_crc(bytes: &[u8], out: &mut [u8; 2])
    ensures { out.new ≡ pack 2 (crc (unpack bytes.now)) }
{
    *out = crc::parity(bytes);
}

// The fields are given as `control_told::write` has them.
#[unsafe(no_mangle)]
pub extern "C" fn road_write_control(digits: u64, fields: &[u8; 12], out: &mut [u8]) -> u8
    ensures { Told 0 (λ say. outcome say out.new ≡ writing (fields_given digits fields.now) out.old) result [] }
{
    control_told::write(digits, fields, out)
}

#[unsafe(no_mangle)]
pub extern "C" fn road_read_control(bytes: &[u8], values: &mut [u64; 11]) -> u8
    ensures { Told 11 (λ say. Reads bytes.now say) result values.new }
{
    control_told::read(bytes, values)
}
