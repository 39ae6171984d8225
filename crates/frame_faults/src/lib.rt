// The first fault of Data Frames in a row (document 02, §14).
#![tactic(auto)]

ghost use Rattle.std.specs.Prelude.{◌≡◌, [], ◌/◌, length};
ghost use Rattle.outcome.specs.Say.{done};
ghost use Rattle.frame_reader.specs.Reading.{faults};
ghost use Rattle.frame_faults.specs.AllFaults.{all_faults, says_of};

use frame_reader::ReadFrameError;

// What a frame is refused for; its Main Data is only looked at.
fn fault_of(frame: &[u8]) -> Result<(), ReadFrameError>
    requires { length frame.now ≡ 2064 }
    ensures { says_of result ≡ faults frame.now (done []) }
{
    let mut main = [0u8; 2048];
    frame_reader::read_frame(frame, &mut main)?;
    Ok(())
}

// What the first frame that is refused is refused for.
pub fn first_fault(frames: &[u8]) -> Result<(), ReadFrameError>
    ensures { says_of result ≡ all_faults (length frames.now / 2064) frames.now (done []) }
{
    for i in 0..frames.len() / 2064 {
        let at = 2064 * i;
        fault_of(&frames[at..at + 2064])?;
    }
    Ok(())
}
