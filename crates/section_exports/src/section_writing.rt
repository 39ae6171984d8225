// Writing a Section. The state is three numbers, so that a caller can hold it and begin with any.
ghost use Rattle.std.specs.Prelude.{◌≡◌, []};
ghost use Rattle.calls.specs.Step.{step};
ghost use Rattle.section_writer.specs.State.{fresh};
ghost use Rattle.section_writer.specs.WriteSay.{written};
ghost use Rattle.told.specs.Told.{Told};

use section_writer::SectionWriter;

// The state in which nothing is written yet.
#[unsafe(no_mangle)]
pub extern "C" fn road_new_section_writer(dsv: &mut i64, level: &mut i64, sections: &mut u64)
    ensures { (dsv.new ≡ fresh.dsv) × (level.new ≡ fresh.level) × (sections.new ≡ fresh.sections) }
{
    let writer = SectionWriter::new();
    *dsv = writer.dsv;
    *level = writer.level;
    *sections = writer.sections;
}

#[unsafe(no_mangle)]
pub extern "C" fn road_write_section(
    dsv: &mut i64,
    level: &mut i64,
    sections: &mut u64,
    frames: &[u8],
    control: &[u8],
    out: &mut [u8],
) -> u8
    ensures { Told 0 (λ say. step say (record { dsv = dsv.exit.now; level = level.new; sections = sections.new }) out.new
        ≡ written (record { dsv = dsv.entry.now; level = level.old; sections = sections.old }) frames.now control.now out.old)
        result [] }
{
    let writer = SectionWriter {
        dsv: *dsv,
        level: *level,
        sections: *sections,
    };
    let step = writer.write(frames, control, out);
    *dsv = step.next.dsv;
    *level = step.next.level;
    *sections = step.next.sections;
    told::number(step.answer)
}
