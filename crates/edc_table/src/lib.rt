// The table of the division by the check polynomial (clause 14.3).
#![tactic(auto)]

mod table;

ghost use Rattle.std.specs.Prelude.{◌≡◌};
ghost use Rattle.edc.specs.Rows.{rows};

use table::TABLE;

// Fetched once a call: an index into the constant would copy it at each look-up.
pub fn rows() -> [u32; 1024]
    ensures { result ≡ rows }
{
    TABLE
}
