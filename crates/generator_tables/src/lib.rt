// The tables of the division by the generator (Annex C.7): small, because each call fetches them.
#![tactic(auto)]

mod down;
mod up;

ghost use Rattle.std.specs.Prelude.{◌≡◌};
ghost use Rattle.generator_rows.specs.Rows.{rows, upward, downward};

use down::DOWN;
use up::UP;

// What is left of a byte times the powers 4 to 7.
pub fn upward() -> [u32; 128]
    ensures { result ≡ rows upward }
{
    UP
}

// What is left of a byte times the powers -12 to -9.
pub fn downward() -> [u32; 128]
    ensures { result ≡ rows downward }
{
    DOWN
}
