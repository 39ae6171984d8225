// Sectors with byte 0 in byte 4n of a frame (clause 16; document 02, §11): the definitions and laws, and the test that both ways share.
#![tactic(auto)]

ghost use Rattle.std.specs.Prelude.{◌≡◌};
ghost use Rattle.alignment.specs.Row.{is_row};

// Whether so many bytes are 1 to `most` times `size` bytes.
pub fn in_row(size: usize, most: usize, bytes: usize) -> bool
    ensures { result ≡ is_row size most bytes }
{
    if size == 0 || bytes % size != 0 {
        return false;
    }
    let n = bytes / size;
    0 < n && n <= most
}
