// The EDC.
ghost use Rattle.std.specs.Prelude.{◌≡◌};
ghost use Rattle.edc.specs.Bits.{bits, number_low_first};
ghost use Rattle.edc.specs.Edc.{remainder, edc, is_zero};

#[unsafe(no_mangle)]
pub extern "C" fn road_edc_remainder(bytes: &[u8]) -> u32
    ensures { result ≡ number_low_first (remainder (bits bytes.now)) }
{
    edc_division::remainder(bytes)
}

// The four bytes of the EDC field.
#[unsafe(no_mangle)]
pub extern "C" fn road_edc_parity(bytes: &[u8], field: &mut [u8; 4])
    ensures { field.new ≡ edc bytes.now }
{
    *field = edc_division::parity(bytes);
}

#[unsafe(no_mangle)]
pub extern "C" fn road_edc_holds(bytes: &[u8]) -> bool
    ensures { result ≡ is_zero (remainder (bits bytes.now)) }
{
    edc_division::holds(bytes)
}
