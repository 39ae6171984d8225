// Numbers as text (document 01, "The report"): the code of a hex digit.
#![tactic(auto)]

ghost use Rattle.std.specs.Prelude.{◌≡◌, ◌%◌};
ghost use Rattle.numerals.specs.Numerals.{hex_digit};

// The last hex digit of a number.
pub fn hex_digit(d: u8) -> u8
    ensures { result ≡ hex_digit (d % 16) }
{
    let last = d % 16;
    if last < 10 {
        b'0' + last
    } else {
        b'A' + (last - 10)
    }
}
