// The times in a Section's Control bytes (clause 22.3.3), relative and absolute. They stand in no fixed relation to the time in a Sector's Header
// (clause 21): nothing here or above turns one into the other.
#![tactic(auto)]

ghost use Rattle.std.specs.Prelude.{◌≡◌, ltb};
ghost use Rattle.control_time.specs.Elapsed.{in_range, elapsed};

// Three fields of the q-channel as they stand: MIN, SEC and FRAC.
#[derive(Clone, Copy, Debug, PartialEq, Eq)]
pub struct ControlTime(pub u8, pub u8, pub u8);

impl ControlTime {
    // The time of three fields as they stand.
    pub fn new(min: u8, sec: u8, frac: u8) -> Self
        ensures { result ≡ record { 0 = min; 1 = sec; 2 = frac } }
    {
        ControlTime(min, sec, frac)
    }

    // Whether each field is in range.
    #[tactic(auto, unfolding(crate::specs::Elapsed::in_range))]
    pub fn in_range(self) -> bool
        ensures { result ≡ in_range self }
    {
        digits::two_digits(self.0, 99)
            && digits::two_digits(self.1, 59)
            && digits::two_digits(self.2, 74)
    }

    // The time in 75ths of a second, of which each is a Section.
    #[tactic(auto, unfolding(crate::specs::Elapsed::elapsed))]
    fn elapsed(self) -> u32
        ensures { result ≡ elapsed self }
    {
        let seconds = digits::value(self.0) * 60 + digits::value(self.1);
        seconds * 75 + digits::value(self.2)
    }

    // Whether this time is before the other.
    pub fn earlier(self, other: ControlTime) -> bool
        ensures { result ≡ ltb (elapsed self) (elapsed other) }
    {
        self.elapsed() < other.elapsed()
    }
}
