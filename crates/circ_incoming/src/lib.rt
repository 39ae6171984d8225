// What comes into the CIRC reader (Annex C.7; document 02, §7): a frame and its marks.
#![tactic(auto)]

ghost use Rattle.std.specs.Prelude.{◌≡◌, ◌++◌};
ghost use Rattle.circ.specs.Marks.{lost_by, lost_marks};
ghost use Rattle.circ.specs.Marked.{entering};

// A mark as it is kept: 1 where it says that its byte is lost, else 0.
fn lost_by(mark: u8) -> u8
    ensures { result ≡ lost_by mark }
{
    match mark {
        1 | 4 => 1,
        _ => 0,
    }
}

// Marks become those that are kept.
fn keep_lost(marks: &mut [u8])
    ensures { marks.new ≡ lost_marks marks.old }
{
    for mark in marks.iter_mut() {
        *mark = lost_by(*mark);
    }
}

// The 32 rows of a frame with their parity turned back, and their marks behind them.
pub fn enter(frame: [u8; 32], marks: [u8; 32]) -> [u8; 64]
    ensures { result ≡ entering (frame ++ marks) }
{
    let rows = circ::invert(frame);
    let mut lost = marks;
    keep_lost(&mut lost);
    let mut r = [0u8; 64];
    outcome::copy(&rows, &mut r[..32]);
    outcome::copy(&lost, &mut r[32..]);
    r
}
