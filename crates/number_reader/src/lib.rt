// The number at a place of a list of run lengths (document 02, §5).
#![tactic(auto)]

ghost use Rattle.std.specs.Prelude.{◌≡◌, ◌<◌};
ghost use Rattle.number_reader.specs.Leads.{Leads};
ghost use Rattle.number_reader.specs.Inner.{ByteAt};

// A number that stands in a list in its shortest form, and the bytes that it takes.
#[derive(Clone, Copy, Debug, PartialEq, Eq)]
pub struct Leading {
    pub number: u16,
    pub taken: usize,
}

fn wide(x: u8) -> u16
    ensures { (result ≡ x) × (result < 256) }
{
    x as u16
}

// The byte at place i, or 0 behind the end.
fn byte_at(list: &[u8], i: usize) -> u16
    ensures { ByteAt list.now i result }
{
    if list.len() <= i {
        return 0;
    }
    wide(list[i])
}

// The number at place `at`, if there is one: there is none at the end. A group of 0 behind another says nothing, and behind the end there is one; a third group above 3 would pass 65,535,
// or go on.
pub fn number_at(list: &[u8], at: usize) -> Option<Leading>
    ensures { Leads list.now at result }
{
    if list.len() <= at {
        return None;
    }
    let a = byte_at(list, at);
    if a < 128 {
        return Some(Leading {
            number: a,
            taken: 1,
        });
    }
    let b = byte_at(list, at + 1);
    if b == 0 {
        return None;
    }
    if b < 128 {
        return Some(Leading {
            number: a - 128 + 128 * b,
            taken: 2,
        });
    }
    let c = byte_at(list, at + 2);
    if c == 0 {
        return None;
    }
    if c > 3 {
        return None;
    }
    Some(Leading {
        number: a - 128 + 128 * (b - 128) + 16384 * c,
        taken: 3,
    })
}
