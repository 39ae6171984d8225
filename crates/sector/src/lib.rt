// A Sector of a Digital Data Track (clause 14): its fields, and the tests of its rules.
#![tactic(auto)]

ghost use Rattle.std.specs.Prelude.{◌≡◌, ◌+◌, ◌<◌, ◌≤◌, length, take, drop};
ghost use Rattle.sector.specs.Layout.{sync, bytes_from, zeros};
ghost use Rattle.lists.specs.Same.{same};

// The twelve bytes of the Sync field (14.1).
pub fn sync_field() -> [u8; 12]
    ensures { result ≡ sync }
{
    [0, 255, 255, 255, 255, 255, 255, 255, 255, 255, 255, 0]
}

// Whether the bytes of `s` from `from` on begin with those of `field`.
fn field_right(s: &[u8], from: usize, field: &[u8]) -> bool
    requires { (0 < length field.now) × (from + length field.now ≤ 2352) }
    ensures { result ≡ same (bytes_from from (length field.now) s.now) field.now }
{
    let end = from + field.len();
    if s.len() < end {
        return false;
    }
    check::same(&s[from..end], field)
}

// Whether bytes 0 to 11 are the Sync field.
pub fn sync_right(s: &[u8]) -> bool
    ensures { result ≡ same (take 12 s.now) sync }
{
    let right = sync_field();
    field_right(s, 0, &right)
}

// Whether the Intermediate field, bytes 2,068 to 2,075, is all (00) (14.4).
pub fn intermediate_right(s: &[u8]) -> bool
    ensures { result ≡ same (bytes_from 2068 8 s.now) (zeros 8) }
{
    let right = [0u8; 8];
    field_right(s, 2068, &right)
}

// Whether all from byte 16 on is the filler of Mode 00, 2,336 bytes (00).
pub fn filler_right(s: &[u8]) -> bool
    ensures { result ≡ same (drop 16 s.now) (zeros 2336) }
{
    if s.len() != 2352 {
        return false;
    }
    let right = [0u8; 2336];
    field_right(s, 16, &right)
}

// A Sector's room, all (00).
pub fn blank() -> [u8; 2352]
    ensures { result ≡ zeros 2352 }
{
    [0u8; 2352]
}
