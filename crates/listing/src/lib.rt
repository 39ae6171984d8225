// The list of changes between two Sectors (document 02, §10): every byte that differs, with its position, as it was and as it is.
#![tactic(auto)]

ghost use Rattle.std.specs.Prelude.{◌+◌, ◌*◌, ◌≤◌, ◌<◌, length};
ghost use Rattle.listing.specs.Listed.{Lists};
ghost use Rattle.listing.specs.Inner.Note.{Notes};

// Byte i, noted as change n where it differs; the answer is how many changes there are then.
fn note(list: &mut [u8], n: usize, i: usize, old: u8, new: u8) -> usize
    requires { (4 * n + 4 ≤ length list.old) × (i < 65536) }
    ensures { Notes n i old new list.old result list.new }
{
    if old == new {
        return n;
    }
    let change = [(i / 256) as u8, (i % 256) as u8, old, new];
    let at = 4 * n;
    outcome::copy(&change, &mut list[at..at + 4]);
    n + 1
}

// `list` becomes the list of changes from the Sector `before` to the Sector `after`, and the answer is their count. Where there are not
// 2,352 bytes of each or not room for 9,408 nothing changes and the answer is 0.
pub fn list_changes(before: &[u8], after: &[u8], list: &mut [u8]) -> usize
    ensures { Lists before.now after.now list.old result list.new }
{
    if before.len() != 2352 {
        return 0;
    }
    if after.len() != 2352 {
        return 0;
    }
    if list.len() != 9408 {
        return 0;
    }
    outcome::clear(list);
    let mut n: usize = 0;
    for i in 0..2352 {
        n = note(list, n, i, before[i], after[i]);
    }
    n
}
