// The addresses of a dump's empty Sectors (document 02, §13), from an input to standard output. What one read means stands in
// `input_reading`, which Sector has a line and every character of it in `empty_lines`.
#![tactic(auto)]

ghost use Rattle.std.specs.Prelude.{◌≡◌, length};
ghost use Rattle.empty_sectors.specs.Run.{after_line, Ended};
ghost use Rattle.empty_sectors.specs.Inner.Turns.{Sayable, Turned};

use input_reading::{Filled, Stop};
use std::io;

// Where the program stands: between two Sectors; ended by a read that brought nothing, with so many bytes of a Sector before it; or ended by
// a write that failed.
#[derive(Clone, Copy)]
pub enum Stand {
    Going,
    Stopped(Filled),
    WriteFailed,
}

// After a line: the program goes on if all of it went out.
fn after_line(went: bool) -> Stand
    ensures { result ≡ after_line went }
{
    if !went {
        return Stand::WriteFailed;
    }
    Stand::Going
}

// Prints what is printed of a Sector. Only this writes to standard output, and it asks that this is what is printed.
fn say(rt: &impl Print, line: &[u8]) -> Stand
    requires { Sayable line.now }
    ensures { Turned result }
{
    after_line(rt.write_all(line).is_ok())
}

// Prints the line of a Sector, which only an empty one has.
fn tell(rt: &impl Print, sector: &[u8]) -> Stand
    requires { length sector.now ≡ 2352 }
    ensures { Turned result }
{
    match empty_lines::find(sector) {
        Some(time) => {
            let line = empty_lines::address_line(time);
            say(rt, &line)
        }
        None => say(rt, b""),
    }
}

// Reads one Sector, and prints its line.
fn turn<R: io::Read>(rt: &impl Print, input: &mut R, sector: &mut [u8]) -> Stand
    requires { length sector.old ≡ 2352 }
    ensures { Turned result }
{
    let filled = input_reading::fill(input, sector);
    if filled.stop.is_some() {
        return Stand::Stopped(filled);
    }
    tell(rt, sector)
}

// All turns. A loop has to end, so it counts them, to the largest number that can be counted.
fn turns<R: io::Read>(rt: &impl Print, input: &mut R) -> Stand
    ensures { Ended result }
{
    let mut sector = sector::blank();
    for _made in 0..u64::MAX {
        let stand = turn(rt, input, &mut sector);
        let Stand::Going = stand else {
            return stand;
        };
    }
    Stand::Going
}

// Says on standard error how many bytes were left over, or that reading failed.
fn complain_of_input(rt: &impl Eprint, filled: Filled) {
    match filled.stop {
        Some(Stop::End) if filled.have != 0 => {
            let have = filled.have;
            let _ = eprintln!(rt; "empties: tail {have}");
        }
        Some(Stop::Failed) => {
            let _ = rt.eprintln("empties: standard input could not be read");
        }
        _ => {}
    }
}

// Says on standard error what was left over, or what failed.
fn complain(rt: &impl Eprint, stand: Stand) {
    match stand {
        Stand::Going => {}
        Stand::Stopped(filled) => complain_of_input(rt, filled),
        Stand::WriteFailed => {
            let _ = rt.eprintln("empties: standard output could not be written");
        }
    }
}

// Prints the address of each empty Sector, and says how it ended.
pub fn print_addresses<R: io::Read>(rt: &(impl Print + Eprint), input: &mut R) -> Stand
    ensures { Ended result }
{
    let stand = turns(rt, input);
    complain(rt, stand);
    stand
}
