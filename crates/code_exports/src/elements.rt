// The field of 256 elements.
ghost use Rattle.std.specs.Prelude.{◌≡◌};
ghost use Rattle.field.specs.Field.{times_alpha, mul};
ghost use Rattle.field.specs.Inverse.{InverseOf};

#[unsafe(no_mangle)]
pub extern "C" fn road_times_alpha(x: u8) -> u8
    ensures { result ≡ times_alpha x }
{
    products::times_alpha(x)
}

#[unsafe(no_mangle)]
pub extern "C" fn road_product(a: u8, b: u8) -> u8
    ensures { result ≡ mul a b }
{
    products::product(a, b)
}

#[unsafe(no_mangle)]
pub extern "C" fn road_inverse(a: u8) -> u8
    ensures { InverseOf a result }
{
    inverses::inverse(a)
}
