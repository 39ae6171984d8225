// What a run calls: the writer or the reader, whose state each call moves on.
ghost use Rattle.std.specs.Prelude.{ℕ};
ghost use Rattle.calls.specs.Step.{Step};
ghost use Rattle.circ.specs.Rings.{Rings, writer_rings, reader_rings};
ghost use Rattle.circ_runs.specs.Runs.{Call, call};
ghost use Rattle.circ_runs.specs.Coders.{writing_in_place, reading_in_place};
ghost use Rattle.circ_runs.specs.Inner.Coding.{Leaves};

use crate::lending::end_of;
use circ_reader::{CircReader, read_in_place};
use circ_writer::{CircWriter, write_in_place};

pub(crate) trait Coder {
    ghost does: { Rings → Call → Step Rings };

    ghost rings: { Self → Rings };

    // The answer of one call, in two bytes.
    fn code(&mut self, incoming: &[u8], out: &mut [u8]) -> [u8; 2]
        ensures { Leaves does (rings self.old) (call incoming.now out.old) (rings self.new) result out.new };
}

impl Coder for CircWriter {
    ghost does = { writing_in_place };

    ghost rings = { λ s. writer_rings s.places s.store };

    fn code(&mut self, incoming: &[u8], out: &mut [u8]) -> [u8; 2] {
        let answer = write_in_place(&mut self.store, &mut self.places, incoming, out);
        [told::number(answer), 0]
    }
}

// The frame is the first 32 bytes, and behind it are its marks.
impl Coder for CircReader {
    ghost does = { reading_in_place };

    ghost rings = { λ s. reader_rings s.places s.store };

    fn code(&mut self, incoming: &[u8], out: &mut [u8]) -> [u8; 2] {
        let end = end_of(0, 32, incoming.len());
        let (frame, marks) = incoming.split_at(end);
        let answer = read_in_place(&mut self.store, &mut self.places, frame, marks, out);
        circ_told::tell(answer)
    }
}
