// A signed number by how far it is above 0 and how far below.
ghost use Rattle.std.specs.Prelude.{◌≡◌, ◌<◌, ◌^◌, leb, nat_abs};
ghost use Rattle.std.proofs.Math.IntN.{sub_ℕ};
ghost use Rattle.section_state.specs.Carried.{above, below, level_right, level_now};

// How far above 0.
pub(crate) fn above_of(d: i64) -> u64
    ensures { result ≡ above d }
{
    if d < 0 { 0 } else { d.unsigned_abs() }
}

// How far below 0.
pub(crate) fn below_of(d: i64) -> u64
    ensures { result ≡ below d }
{
    if d < 0 { d.unsigned_abs() } else { 0 }
}

// The DSV of two counts.
pub(crate) fn dsv_of(plus: u64, minus: u64) -> i64
    requires { (plus < 2 ^ 60) × (minus < 2 ^ 60) }
    ensures { result ≡ sub_ℕ plus minus }
{
    plus as i64 - minus as i64
}

// The absolute value is at most the limit.
pub(crate) fn within(d: i64, limit: u64) -> bool
    ensures { result ≡ leb (nat_abs d) limit }
{
    d.unsigned_abs() <= limit
}

// The level is +1 or -1.
pub(crate) fn level_right(l: i64) -> bool
    ensures { result ≡ level_right l }
{
    l == 1 || l == -1
}

// The level as 1 or 0.
pub(crate) fn level_now(l: i64) -> u8
    ensures { result ≡ level_now l }
{
    if l < 0 { 0 } else { 1 }
}
