// Runs of the CIRC writer and of the CIRC reader, each from a fresh state on, and single steps of both from any state.
ghost use Rattle.std.specs.Prelude.{◌≡◌, []};
ghost use Rattle.circ.specs.Chains.{fresh_writer};
ghost use Rattle.circ.specs.Marked.{fresh_reader};
ghost use Rattle.calls.specs.Step.{step};
ghost use Rattle.told.specs.Told.{Told};
ghost use Rattle.circ.specs.Rings.{writer_rings, writes_in_place, reader_rings, reads_in_place};
ghost use Rattle.circ_runs.specs.Runs.{left, runs};
ghost use Rattle.circ_runs.specs.Coders.{writing, reading};

#[unsafe(no_mangle)]
pub extern "C" fn road_circ_write(frames: &[u8], steps: &mut [u8], out: &mut [u8])
    ensures { left steps.new out.new ≡ runs writing fresh_writer steps.old frames.now out.old }
{
    circ_runs::write(frames, steps, out)
}

#[unsafe(no_mangle)]
pub extern "C" fn road_circ_read(frames: &[u8], steps: &mut [u8], out: &mut [u8])
    ensures { left steps.new out.new ≡ runs reading fresh_reader steps.old frames.now out.old }
{
    circ_runs::read(frames, steps, out)
}

// The state is store and places, so that a caller can hold it and begin with any; it becomes the next.
#[unsafe(no_mangle)]
pub extern "C" fn road_circ_write_step(
    store: &mut [u8; 1552],
    places: &mut [u8; 55],
    frame: &[u8],
    out: &mut [u8],
) -> u8
    ensures { Told 0 (λ say. step say (writer_rings places.new store.new) out.new
        ≡ writes_in_place (writer_rings places.old store.old) frame.now out.old) result [] }
{
    circ_steps::write(store, places, frame, out)
}

#[unsafe(no_mangle)]
pub extern "C" fn road_circ_read_step(
    store: &mut [u8; 3082],
    places: &mut [u8; 56],
    frame: &[u8],
    marks: &[u8],
    out: &mut [u8],
    doubt: &mut [u64; 1],
) -> u8
    ensures { Told 1 (λ say. step say (reader_rings places.new store.new) out.new
        ≡ reads_in_place (reader_rings places.old store.old) frame.now marks.now out.old) result doubt.new }
{
    circ_steps::read(store, places, frame, marks, out, doubt)
}
