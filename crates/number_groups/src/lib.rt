// Numbers in groups of seven bits, written into a list (document 02, §5).
#![tactic(auto)]

ghost use Rattle.number_groups.specs.Put.{Puts};

// The number n in its shortest form, from place `used` on; the answer is the place behind it. Where fewer than three places are left nothing changes and the answer
// is `used`.
pub fn put_number(list: &mut [u8], used: usize, n: u16) -> usize
    ensures { Puts used n list.old result list.new }
{
    if list.len() < 3 {
        return used;
    }
    if list.len() - 3 < used {
        return used;
    }
    if n < 128 {
        list[used] = n as u8;
        return used + 1;
    }
    list[used] = (128 + n % 128) as u8;
    if n < 16384 {
        list[used + 1] = (n / 128) as u8;
        return used + 2;
    }
    list[used + 1] = (128 + n / 128 % 128) as u8;
    list[used + 2] = (n / 16384) as u8;
    used + 3
}
