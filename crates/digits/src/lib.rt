// Two decimal digits in a byte (clauses 14.2 and 22.3.3), the tens in its upper half.
#![tactic(auto)]

ghost use Rattle.std.specs.Prelude.{◌≡◌};
ghost use Rattle.digits.specs.Digits.{value_of_digits, two_digits};

// The number that the digits make.
pub fn value(b: u8) -> u32
    ensures { result ≡ value_of_digits b }
{
    let tens = b / 16;
    let ones = b % 16;
    (tens as u32) * 10 + (ones as u32)
}

// Two decimal digits that make a number of at most `top`.
#[tactic(auto, unfolding(crate::specs::Digits::two_digits))]
pub fn two_digits(b: u8, top: u8) -> bool
    ensures { result ≡ two_digits top b }
{
    let tens = b / 16;
    let ones = b % 16;
    tens < 10 && ones < 10 && tens * 10 + ones <= top
}
