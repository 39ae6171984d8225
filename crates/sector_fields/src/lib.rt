// The fields of a Sector around its user data (clause 14): Sync, address and mode before it, and what protects Mode 01 behind it.
#![tactic(auto)]

ghost use Rattle.std.specs.Prelude.{◌≡◌};
ghost use Rattle.sector_fields.specs.Front.{front};
ghost use Rattle.sector_fields.specs.Protect.{Protects};

use address::HeaderTime;

// Sync, address and mode.
pub fn front_of(mode: u8, time: HeaderTime) -> [u8; 16]
    ensures { result ≡ front mode time }
{
    [
        0, 255, 255, 255, 255, 255, 255, 255, 255, 255, 255, 0, time.0, time.1, time.2, mode,
    ]
}

// A Sector with its EDC and its parities put in.
pub fn protect(laid: [u8; 2352]) -> [u8; 2352]
    ensures { Protects laid result }
{
    let mut s = laid;
    let check = edc_division::parity(&s[..2064]);
    outcome::copy(&check, &mut s[2064..2068]);
    parities::put_p(&mut s);
    parities::put_q(&mut s);
    s
}
