// What a run lends to each of its calls.
ghost use Rattle.std.specs.Prelude.{◌≡◌, ◌+◌, ◌-◌, ◌≤◌, min};

// Where the part ends that begins at a place: it is as long as was asked, or to the end.
pub(crate) fn end_of(at: usize, asked: u8, all: usize) -> usize
    requires { at ≤ all }
    ensures { result ≡ at + min asked (all - at) }
{
    at + (all - at).min(asked as usize)
}
