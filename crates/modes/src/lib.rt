// The modes of Sectors that are written (clause 14; document 02, §13), and how much user data each has.
#![tactic(auto)]

ghost use Rattle.std.specs.Prelude.{◌≡◌};
ghost use Rattle.sector.specs.Layout.{user_length};
ghost use Rattle.modes.specs.Modes.{is_written};

// Whether a mode is written. Any number may be asked, here and below, since the writer takes any and refuses.
#[tactic(auto, unfolding(crate::specs::Modes::is_written))]
pub fn is_written(mode: u8) -> bool
    ensures { result ≡ is_written mode }
{
    matches!(mode, 1 | 2)
}

// How many bytes of user data a mode has.
pub fn user_length(mode: u8) -> usize
    ensures { result ≡ user_length mode }
{
    match mode {
        1 => 2048,
        2 => 2336,
        _ => 0,
    }
}
