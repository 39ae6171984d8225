// The counts of a capture and the distance of two of them (document 02, §5).
#![tactic(auto)]

ghost use Rattle.std.specs.Prelude.{◌≡◌, slice_index};
ghost use Rattle.captures.specs.Counts.{counts_of, distance};
ghost use Rattle.captures.specs.Kept.{right_capture};

// Whether so many bytes can be a capture: an even number of them, 64 KiB at most.
pub fn is_capture(capture: &[u8]) -> bool
    ensures { result ≡ right_capture capture.now }
{
    capture.len() % 2 == 0 && capture.len() <= 65536
}

// The count of edge i, high byte first, or 0 where there is no such edge.
pub fn count_at(capture: &[u8], i: usize) -> u16
    ensures { result ≡ slice_index (counts_of capture.now) i }
{
    if capture.len() / 2 <= i {
        return 0;
    }
    u16::from_be_bytes([capture[2 * i], capture[2 * i + 1]])
}

// The distance of two edges: the count wraps.
pub fn ticks(last: u16, count: u16) -> u16
    ensures { result ≡ distance last count }
{
    count.wrapping_sub(last)
}
