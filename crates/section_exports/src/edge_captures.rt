// Edge captures: kept as lists of runs, restored, and replayed.
ghost use Rattle.std.specs.Prelude.{◌≡◌, get_or};
ghost use Rattle.outcome.specs.Say.{outcome};
ghost use Rattle.captures.specs.Kept.{keeping, Restores};
ghost use Rattle.replaying.specs.Replay.{replaying};
ghost use Rattle.keeping.specs.Answers as listed;
ghost use Rattle.restoring.specs.Answers as recaptured;
ghost use Rattle.replay.specs.Answers as replayed;
ghost use Rattle.told.specs.Told.{Tells, Told};

use keeping::ListError;
use outcome::Refusal;
use replay::{ReplayError, Replayed};
use restoring::RestoreError;
use told::tell;

// With a list comes its used length.
fn tell_listed(a: Result<usize, ListError>, used: &mut [u64; 1]) -> u8
    ensures { Tells 1 (listed.say_of a) result used.new }
{
    match a {
        Ok(n) => tell(0, [n as u64], used),
        Err(e) => tell(e.number(), [0], used),
    }
}

// With a capture comes its used length.
fn tell_recaptured(a: Result<usize, RestoreError>, used: &mut [u64; 1]) -> u8
    ensures { Tells 1 (recaptured.say_of a) result used.new }
{
    match a {
        Ok(n) => tell(0, [n as u64], used),
        Err(e) => tell(e.number(), [0], used),
    }
}

// The index of an illegal run, and 0 where no run is refused.
fn illegal_run(e: ReplayError) -> u64
    ensures { result ≡ get_or (replayed.values_with e) 0 0 }
{
    match e {
        ReplayError::IllegalRun(i) => i as u64,
        _ => 0,
    }
}

// With frames come the used length and their number, with an illegal run its index.
fn tell_replayed(a: Result<Replayed, ReplayError>, values: &mut [u64; 2]) -> u8
    ensures { Tells 2 (replayed.say_of a) result values.new }
{
    match a {
        Ok(made) => tell(0, [made.used as u64, made.frames as u64], values),
        Err(e) => tell(e.number(), [illegal_run(e), 0], values),
    }
}

#[unsafe(no_mangle)]
pub extern "C" fn road_runs_of(capture: &[u8], list: &mut [u8], used: &mut [u64; 1]) -> u8
    ensures { Told 1 (λ say. outcome say list.new ≡ keeping capture.now list.old) result used.new }
{
    tell_listed(keeping::runs_of(capture, list), used)
}

#[unsafe(no_mangle)]
pub extern "C" fn road_capture_of(list: &[u8], capture: &mut [u8], used: &mut [u64; 1]) -> u8
    ensures { Told 1 (λ say. Restores list.now capture.old say capture.new) result used.new }
{
    tell_recaptured(restoring::capture_of(list, capture), used)
}

#[unsafe(no_mangle)]
pub extern "C" fn road_replay(capture: &[u8], frames: &mut [u8], values: &mut [u64; 2]) -> u8
    ensures { Told 2 (λ say. outcome say frames.new ≡ replaying capture.now frames.old) result values.new }
{
    tell_replayed(replay::replay(capture, frames), values)
}
