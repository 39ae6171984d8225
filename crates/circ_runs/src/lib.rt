// Runs of the CIRC writer and of the CIRC reader over lent buffers, for callers who cannot hold a state.
#![tactic(auto)]

mod coder;
mod lending;

ghost use Rattle.std.specs.Prelude.{◌≡◌};
ghost use Rattle.circ.specs.Chains.{fresh_writer};
ghost use Rattle.circ.specs.Marked.{fresh_reader};
ghost use Rattle.circ_runs.specs.Runs.{left, runs};
ghost use Rattle.circ_runs.specs.Coders.{writing, reading};

use crate::coder::Coder;
use crate::lending::end_of;
use circ_reader::CircReader;
use circ_writer::CircWriter;

// A run of either, from the state that is lent on.
fn run<C: Coder>(coder: &mut C, frames: &[u8], steps: &mut [u8], out: &mut [u8])
    ensures { left steps.new out.new ≡ runs C.does (C.rings coder.old) steps.old frames.now out.old }
{
    let mut from: usize = 0;
    let mut to: usize = 0;
    for call in 0..steps.len() / 2 {
        let k = 2 * call;
        let from_end = end_of(from, steps[k], frames.len());
        let to_end = end_of(to, steps[k + 1], out.len());
        let answer = coder.code(&frames[from..from_end], &mut out[to..to_end]);
        steps[k..k + 2].copy_from_slice(&answer);
        from = from_end;
        to = to_end;
    }
}

// A run from a fresh writer on: it leaves what it would if the bytes that wait shifted along.
pub fn write(frames: &[u8], steps: &mut [u8], out: &mut [u8])
    ensures { left steps.new out.new ≡ runs writing fresh_writer steps.old frames.now out.old }
{
    run(&mut CircWriter::new(), frames, steps, out)
}

// The same from a fresh reader on.
pub fn read(frames: &[u8], steps: &mut [u8], out: &mut [u8])
    ensures { left steps.new out.new ≡ runs reading fresh_reader steps.old frames.now out.old }
{
    run(&mut CircReader::new(), frames, steps, out)
}
