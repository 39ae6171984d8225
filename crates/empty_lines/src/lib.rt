// Whether a Sector is empty, and the line with its address (document 02, §13).
#![tactic(auto)]

ghost use Rattle.std.specs.Prelude.{◌≡◌, ◌++◌};
ghost use Rattle.text.specs.Characters.{ascii};
ghost use Rattle.text.specs.Report.{time_text};
ghost use Rattle.empty_lines.specs.Listed.{found_in};

use address::HeaderTime;
use numerals::hex_digit;

// The mode of an empty Sector.
const EMPTY_MODE: u8 = 0;

// The address of a Sector, if it is empty. Judging decides: a Sector is empty if it passes with mode 00.
pub fn find(sector: &[u8]) -> Option<HeaderTime>
    ensures { result ≡ found_in sector.now }
{
    let Ok(passed) = judge::judge(sector) else {
        return None;
    };
    if passed.mode == EMPTY_MODE {
        return Some(passed.time);
    }
    None
}

// A line with an address alone.
pub fn address_line(time: HeaderTime) -> [u8; 7]
    ensures { result ≡ time_text time ++ ascii "\n" }
{
    [
        hex_digit(time.0 / 16),
        hex_digit(time.0 % 16),
        hex_digit(time.1 / 16),
        hex_digit(time.1 % 16),
        hex_digit(time.2 / 16),
        hex_digit(time.2 % 16),
        b'\n',
    ]
}
