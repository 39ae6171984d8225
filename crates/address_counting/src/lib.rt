// Counting the addresses of Sectors up (clause 14.2; document 02, §14).
#![tactic(auto)]

ghost use Rattle.std.specs.Prelude.{◌≡◌, ◌&&◌, true, ◌<◌};
ghost use Rattle.address.specs.Address.{in_range};
ghost use Rattle.address_counting.specs.Count.{last_of, left, room, next_digits, has_next, next, following};

use address::HeaderTime;

// The last address of the area that this one lies in.
fn last_of(time: HeaderTime) -> HeaderTime
    ensures { result ≡ last_of time }
{
    if time.in_lead_in() {
        return HeaderTime::new(0xF9, 0x59, 0x74);
    }
    HeaderTime::new(0x99, 0x59, 0x74)
}

// How many addresses there are from this one to the last of its area.
fn left(time: HeaderTime) -> u32
    requires { in_range time ≡ true }
    ensures { result ≡ left time }
{
    let last = last_of(time);
    last.rank() + 1 - time.rank()
}

// Whether so many Sectors in a row from this address on stay within its area.
pub fn fits(time: HeaderTime, count: usize) -> bool
    ensures { result ≡ (in_range time && room count time) }
{
    time.in_range() && count <= left(time) as usize
}

// Two decimal digits, and one more.
fn next_digits(b: u8) -> u8
    requires { b < 249 }
    ensures { result ≡ next_digits b }
{
    if b % 16 == 9 {
        return b + 7;
    }
    b + 1
}

// Whether the area of this address goes on behind it.
fn has_next(time: HeaderTime) -> bool
    ensures { result ≡ has_next time }
{
    time.in_range() && time.earlier(last_of(time))
}

// The address behind one whose area goes on.
fn next(time: HeaderTime) -> HeaderTime
    requires { has_next time ≡ true }
    ensures { result ≡ next time }
{
    let HeaderTime(minute, second, frame) = time;
    if frame != 0x74 {
        return HeaderTime::new(minute, second, next_digits(frame));
    }
    if second != 0x59 {
        return HeaderTime::new(minute, next_digits(second), 0);
    }
    HeaderTime::new(next_digits(minute), 0, 0)
}

// The next address; behind the last one of its area, and for bytes that are no address, the same again.
pub fn following(time: HeaderTime) -> HeaderTime
    ensures { result ≡ following time }
{
    if !has_next(time) {
        return time;
    }
    next(time)
}
