// Which symbols a frame is made of.
ghost use Rattle.std.specs.Prelude.{◌≡◌, ◌<◌, length};
ghost use Rattle.section_frames.specs.Inner.FrameSteps.{SymbolFound, SymbolsFound};

// Which symbol is word i of frame f: a byte, or 256 for SYNC 0 and 257 for SYNC 1. The Control byte comes first.
#[tactic(auto, using(crate::proofs::FoundSymbols::found_sync0, crate::proofs::FoundSymbols::found_sync1, crate::proofs::FoundSymbols::found_control, crate::proofs::FoundSymbols::found_byte))]
fn symbol_at(frames: &[u8], control: &[u8], f: usize, i: usize) -> u16
    requires { (length frames.now ≡ 3136) × (length control.now ≡ 96) × (f < 98) × (i < 33) }
    ensures { SymbolFound frames.now control.now f i result }
{
    match (i, f) {
        (0, 0) => 256,
        (0, 1) => 257,
        (0, _) => u16::from(control[f - 2]),
        _ => u16::from(frames[32 * f + (i - 1)]),
    }
}

// The symbols of frame f.
pub(crate) fn symbols_of(frames: &[u8], control: &[u8], f: usize) -> [u16; 33]
    requires { (length frames.now ≡ 3136) × (length control.now ≡ 96) × (f < 98) }
    ensures { SymbolsFound frames.now control.now f 33 result }
{
    let mut symbols = [0u16; 33];
    for (i, symbol) in symbols.iter_mut().enumerate() {
        *symbol = symbol_at(frames, control, f, i);
    }
    symbols
}
