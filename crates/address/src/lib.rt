// The address of a Sector (clause 14.2): the time in its Header, which stands in no fixed relation to that of a Section (clause 21).
#![tactic(auto)]

ghost use Rattle.std.specs.Prelude.{◌≡◌, ◌||◌, ◌≤◌};
ghost use Rattle.address.specs.Address.{in_user_data_or_lead_out, in_lead_in, in_range};
ghost use Rattle.address.specs.Order.{minutes_before, rank, earlier};

// The three address bytes of a Sector's header: minute, second, frame.
#[derive(Clone, Copy, Debug, PartialEq, Eq)]
pub struct HeaderTime(pub u8, pub u8, pub u8);

impl HeaderTime {
    // The time of three address bytes as they stand.
    pub fn new(minute: u8, second: u8, frame: u8) -> Self
        ensures { result ≡ record { 0 = minute; 1 = second; 2 = frame } }
    {
        HeaderTime(minute, second, frame)
    }

    // Whether the minute is one of the User Data Area or the Lead-out Area.
    fn in_user_data_or_lead_out(self) -> bool
        ensures { result ≡ in_user_data_or_lead_out self }
    {
        digits::two_digits(self.0, 99)
    }

    // Whether the minute is one of the Lead-in Area, where (A0) is added to it.
    #[tactic(auto, unfolding(crate::specs::Address::in_lead_in))]
    pub fn in_lead_in(self) -> bool
        ensures { result ≡ in_lead_in self }
    {
        self.0 >= 0xA0 && digits::two_digits(self.0 - 0xA0, 59)
    }

    // Whether the minute is one of either.
    fn minute_right(self) -> bool
        ensures { result ≡ (in_user_data_or_lead_out self || in_lead_in self) }
    {
        self.in_user_data_or_lead_out() || self.in_lead_in()
    }

    // Whether minute, second and frame are in range (14.2).
    #[tactic(auto, unfolding(crate::specs::Address::in_range))]
    pub fn in_range(self) -> bool
        ensures { result ≡ in_range self }
    {
        self.minute_right() && digits::two_digits(self.1, 59) && digits::two_digits(self.2, 74)
    }

    // The minutes before that of this address, of the Lead-in Area first.
    fn minutes_before(self) -> u32
        ensures { (result ≡ minutes_before self) × (result ≤ 225) }
    {
        let minute = self.0;
        if self.in_lead_in() {
            return digits::value(minute - 0xA0);
        }
        60 + digits::value(minute)
    }

    // How many addresses come before this one.
    pub fn rank(self) -> u32
        ensures { result ≡ rank self }
    {
        let minutes = self.minutes_before();
        let seconds = minutes * 60 + digits::value(self.1);
        seconds * 75 + digits::value(self.2)
    }

    // Whether this address lies before the other. It is no `PartialOrd`: of two times that are not in range both may have one rank and yet not be equal.
    pub fn earlier(self, other: HeaderTime) -> bool
        ensures { result ≡ earlier self other }
    {
        self.rank() < other.rank()
    }
}
