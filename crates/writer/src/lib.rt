// Writing a Sector (clause 14).
#![tactic(auto)]

ghost use Rattle.std.specs.Prelude.{◌≡◌, ◌≤◌, length};
ghost use Rattle.writer.specs.Write.{Writes, refusal_of, say_of};
ghost use Rattle.writer.specs.Inner.Laid.{laid};
ghost use Rattle.writer.specs.Inner.Make.{Askable, Makes};

use address::HeaderTime;
use outcome::Refusal;

// A Sector with its front and its user data, and zeros to the end.
fn lay_out(mode: u8, time: HeaderTime, user: &[u8]) -> [u8; 2352]
    requires { length user.now ≤ 2336 }
    ensures { result ≡ laid mode time user.now }
{
    let mut s = sector::blank();
    let first = sector_fields::front_of(mode, time);
    outcome::copy(&first, &mut s[..16]);
    let end = 16 + user.len();
    outcome::copy(user, &mut s[16..end]);
    s
}

// The Sector that is asked for.
fn make(mode: u8, time: HeaderTime, user: &[u8]) -> [u8; 2352]
    requires { Askable mode time user.now }
    ensures { Makes mode time user.now result }
{
    let s = lay_out(mode, time, user);
    if mode == 1 {
        return sector_fields::protect(s);
    }
    s
}

// Why nothing is written.
#[derive(Clone, Copy, Debug, PartialEq, Eq)]
pub enum WriteError {
    WrongOutgoing,
    UnwrittenMode,
    WrongIncoming,
    WrongAddress,
}

impl Refusal for WriteError {
    ghost refusal_of = { refusal_of };

    fn number(self) -> u8 {
        match self {
            WriteError::WrongIncoming => 1,
            WriteError::WrongOutgoing => 2,
            WriteError::UnwrittenMode => 3,
            WriteError::WrongAddress => 4,
        }
    }
}

// Writes the Sector with this mode, address and user data, or refuses.
pub fn write(mode: u8, time: HeaderTime, user: &[u8], out: &mut [u8]) -> Result<(), WriteError>
    ensures { Writes mode time user.now out.old (say_of result) out.new }
{
    if out.len() != 2352 {
        return Err(WriteError::WrongOutgoing);
    }
    if !modes::is_written(mode) {
        outcome::wipe(out, 2352);
        return Err(WriteError::UnwrittenMode);
    }
    let right = modes::user_length(mode);
    if user.len() != right {
        outcome::wipe(out, 2352);
        return Err(WriteError::WrongIncoming);
    }
    if !time.in_range() {
        outcome::wipe(out, 2352);
        return Err(WriteError::WrongAddress);
    }
    let s = make(mode, time, user);
    outcome::copy(&s, out);
    Ok(())
}
