// The report (document 01) from an input to standard output. What one read means stands in `input_reading`, what follows from it in
// `report_stand`, its steps in `report_run`, what is printed in `report_lines`; the fate of a Sector is decided in `batch` and `fate`, every character of a line in `text`.
#![tactic(auto)]

ghost use Rattle.std.specs.Prelude.{◌≡◌, ◌*◌, length};
ghost use Rattle.input_reading.specs.Reading.{Fills};
ghost use Rattle.fate_counts.specs.Counting.{largest};
ghost use Rattle.report_stand.specs.Standing.{ahead};
ghost use Rattle.report_run.specs.Run.{Turning, Reported};
ghost use Rattle.reporting.specs.Inner.Turn.{Turn};

use fate_counts::Counts;
use input_reading::Filled;
use report_stand::{Progress, Stand, over};
use std::io::Read;

// Prints the lines of the whole Sectors that came; then the report stands as reading ended.
fn tell_whole(
    rt: &impl Print,
    counts: Counts,
    filled: Filled,
    received: &[u8],
    out: &mut [u8],
) -> Progress
    requires { (length received.now ≡ 37632) × (length out.old ≡ 37632) × Fills (2352 * ahead counts) filled }
    ensures { Turn counts result }
{
    let whole = report_stand::whole_bytes(filled.have);
    let told = report_lines::tell_each(rt, counts, &received[..whole], &mut out[..whole]);
    if over(told.stand) {
        return told;
    }
    Progress {
        counts: told.counts,
        stand: report_stand::stand_after(filled),
    }
}

// Reads Sectors and prints the lines of those that came.
fn turn<R: Read>(
    rt: &impl Print,
    input: &mut R,
    counts: Counts,
    received: &mut [u8],
    out: &mut [u8],
) -> Progress
    requires { (length received.old ≡ 37632) × (length out.old ≡ 37632) }
    ensures { Turn counts result }
{
    let room = 2352 * report_stand::sectors_ahead(counts);
    let filled = input_reading::fill(input, &mut received[..room]);
    tell_whole(rt, counts, filled, received, out)
}

// All turns. A loop has to end, so it goes by the Sectors counted, to the largest number of them that can be.
fn turns<R: Read>(rt: &impl Print, input: &mut R, opened: Progress) -> Progress
    requires { Turning 0 opened }
    ensures { Turning largest result }
{
    if over(opened.stand) {
        return opened;
    }
    let mut received = [0; 37632];
    let mut out = [0; 37632];
    let mut progress = opened;
    while progress.counts.sectors < u64::MAX {
        progress = turn(rt, input, progress.counts, &mut received, &mut out);
        if over(progress.stand) {
            return progress;
        }
    }
    progress
}

// Prints the count of leftover bytes and the last line, if the input is at its end.
fn close(rt: &impl Print, run: Progress) -> Progress
    requires { Turning largest run }
    ensures { Reported result }
{
    let Stand::AtEnd(left) = run.stand else {
        return run;
    };
    let tailed = report_lines::tail(rt, left, run.counts);
    let Stand::Closing = tailed.stand else {
        return tailed;
    };
    report_lines::last(rt, tailed.counts)
}

// Says on standard error what failed.
fn complain(rt: &impl Eprint, stand: Stand) {
    match stand {
        Stand::ReadFailed => {
            let _ = rt.eprintln("report: standard input could not be read");
        }
        Stand::WriteFailed => {
            let _ = rt.eprintln("report: standard output could not be written");
        }
        _ => {}
    }
}

// Prints the report, and says how it ended. Where reading or writing failed, nothing more is printed, so no last line says what was
// not seen.
pub fn report<R: Read>(rt: &(impl Print + Eprint), input: &mut R) -> Progress
    ensures { Reported result }
{
    let run = turns(rt, input, report_lines::open(rt));
    let closed = close(rt, run);
    complain(rt, closed.stand);
    closed
}
