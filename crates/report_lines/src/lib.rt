// The lines of a report printed (document 01, "The report"). Only `print` writes to standard output, only `say` calls it, and `say` asks that the
// report has this line where it stands.
#![tactic(auto)]

ghost use Rattle.fate_counts.specs.Counting.{none_counted};
ghost use Rattle.report_run.specs.Run.{Step, Goes};
ghost use Rattle.report_lines.specs.Inner.Says.{Says, counted, Due};
ghost use Rattle.report_lines.specs.Told.{Tells};

use fate_counts::{Counts, Fate};
use report_stand::{Progress, Stand};

// Writes a line, and says whether all of it went out.
fn print(rt: &impl Print, line: &[u8]) -> bool {
    rt.write_all(line).is_ok()
}

// Prints the line that leads from here to `next`.
fn say(rt: &impl Print, stand: Stand, counts: Counts, line: &[u8], next: Progress) -> Progress
    requires { Step stand counts line.now next.stand next.counts }
    ensures { Says stand counts next result }
{
    report_stand::after_line(print(rt, line), counts, next)
}

// Prints the line of a Sector with this fate and counts it.
fn tell(rt: &impl Print, counts: Counts, fate: Fate) -> Progress
    requires { Due counts fate }
    ensures { Says Stand.Going counts (counted counts fate) result }
{
    let line = text::fate_line(counts.sectors, fate);
    let next = Progress {
        counts: counts.counted(fate),
        stand: Stand::Going,
    };
    say(rt, Stand::Going, counts, &line.bytes[..line.len], next)
}

// Repairs the whole Sectors that came, at most sixteen, and prints the line of each, in order; where they are not such Sectors, or cannot all be
// counted, nothing is printed.
pub fn tell_each(rt: &impl Print, counts: Counts, received: &[u8], out: &mut [u8]) -> Progress
    ensures { Tells counts received.now out.old out.new result }
{
    let mut progress = Progress {
        counts,
        stand: Stand::Going,
    };
    let batch = batch::repair_many(received, out);
    let Ok(n) = batch.answer else {
        return progress;
    };
    if report_stand::sectors_ahead(counts) < n {
        return progress;
    }
    let fates = batch.fates;
    for i in 0..n {
        let at = 2352 * i;
        let fate = fate::fate_of(fates[i], &out[at..at + 2352]);
        progress = tell(rt, progress.counts, fate);
        let Stand::Going = progress.stand else {
            return progress;
        };
    }
    progress
}

// Prints the first line.
pub fn open(rt: &impl Print) -> Progress
    ensures { Goes Stand.Opening none_counted result.stand result.counts }
{
    let counts = Counts::none();
    let next = Progress {
        counts,
        stand: Stand::Going,
    };
    let line = text::first_line();
    say(rt, Stand::Opening, counts, &line.bytes[..line.len], next)
}

// Prints the count of leftover bytes.
pub fn tail(rt: &impl Print, left: u64, counts: Counts) -> Progress
    ensures { Goes (Stand.AtEnd left) counts result.stand result.counts }
{
    let next = Progress {
        counts,
        stand: Stand::Closing,
    };
    let line = text::tail_line(left);
    say(
        rt,
        Stand::AtEnd(left),
        counts,
        &line.bytes[..line.len],
        next,
    )
}

// Prints the last line.
pub fn last(rt: &impl Print, counts: Counts) -> Progress
    ensures { Goes Stand.Closing counts result.stand result.counts }
{
    let next = Progress {
        counts,
        stand: Stand::Done,
    };
    let line = text::last_line(counts.clean, counts.repaired, counts.refused);
    say(rt, Stand::Closing, counts, &line.bytes[..line.len], next)
}
