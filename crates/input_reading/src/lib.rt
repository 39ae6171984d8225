// Filling a buffer from an input. What a read answers goes into one pure function, `meaning`; what it leads to is decided by what it says.
#![tactic(auto)]

ghost use Rattle.std.specs.Prelude.{◌≡◌, length};
ghost use Rattle.input_reading.specs.Reading.{Fills};
ghost use Rattle.input_reading.specs.Inner.{meaning_of, Brought};

use std::io;

// Why a read brought nothing: it failed, or the input is at its end.
#[derive(Clone, Copy, Debug, PartialEq, Eq)]
pub enum Stop {
    Failed,
    End,
}

// How many bytes of a buffer are read, and what stopped the reading before it was full.
#[derive(Clone, Copy, Debug, PartialEq, Eq)]
pub struct Filled {
    pub have: usize,
    pub stop: Option<Stop>,
}

// What the answer of a read means: so many bytes more came, or why none did.
fn meaning(got: io::Result<usize>) -> Result<usize, Stop>
    ensures { result ≡ meaning_of got }
{
    match got {
        Err(_) => Err(Stop::Failed),
        Ok(0) => Err(Stop::End),
        Ok(more) => Ok(more),
    }
}

// One read.
fn read_more<R: io::Read>(input: &mut R, part: &mut [u8]) -> Result<usize, Stop>
    ensures { Brought (length part.old) result }
{
    let got = input.read(part);
    meaning(got)
}

// Reads until the buffer is full, or a read brings nothing; a read may bring less than was asked for.
pub fn fill<R: io::Read>(input: &mut R, buffer: &mut [u8]) -> Filled
    ensures { Fills (length buffer.old) result }
{
    let mut have = 0;
    while have < buffer.len() {
        match read_more(input, &mut buffer[have..]) {
            Ok(more) => have += more,
            Err(stop) => {
                return Filled {
                    have,
                    stop: Some(stop),
                };
            }
        }
    }
    Filled { have, stop: None }
}
