// How far a report (document 01) is: how it stands, what is counted, and what follows from a read or from a line. Nothing here reads or writes.
#![tactic(auto)]

ghost use Rattle.std.specs.Prelude.{◌≡◌, ◌*◌, ◌/◌};
ghost use Rattle.report_stand.specs.Standing.{is_over, ahead, stand_after, after_line};

use fate_counts::Counts;
use input_reading::{Filled, Stop};

// How a report stands: before its first line; between two Sectors; at the input's end with so many bytes left over; before its last
// line; all said; or ended by a read or a write that failed.
#[derive(Clone, Copy)]
pub enum Stand {
    Opening,
    Going,
    AtEnd(u64),
    Closing,
    Done,
    ReadFailed,
    WriteFailed,
}

// How far a report is: the Sectors counted, and how it stands.
#[derive(Clone, Copy)]
pub struct Progress {
    pub counts: Counts,
    pub stand: Stand,
}

// Whether no Sector follows.
pub fn over(stand: Stand) -> bool
    ensures { result ≡ is_over stand }
{
    !matches!(stand, Stand::Going)
}

// How a report stands when the lines of the Sectors that came are out: it goes on only if all that were asked for came.
pub fn stand_after(filled: Filled) -> Stand
    ensures { result ≡ stand_after filled }
{
    match filled.stop {
        None => Stand::Going,
        Some(Stop::End) => Stand::AtEnd((filled.have % 2352) as u64),
        Some(Stop::Failed) => Stand::ReadFailed,
    }
}

// How many Sectors are asked for at once: sixteen, or as many as can still be counted.
pub fn sectors_ahead(counts: Counts) -> usize
    ensures { result ≡ ahead counts }
{
    (u64::MAX - counts.sectors).min(16) as usize
}

// How many of so many bytes are those of whole Sectors.
pub fn whole_bytes(have: usize) -> usize
    ensures { result ≡ 2352 * (have / 2352) }
{
    have - have % 2352
}

// How far a report is after a line that leads to `next`: there if all of it went out, and else it ends where it was.
pub fn after_line(went: bool, counts: Counts, next: Progress) -> Progress
    ensures { result ≡ after_line went counts next }
{
    if went {
        return next;
    }
    Progress {
        counts,
        stand: Stand::WriteFailed,
    }
}
