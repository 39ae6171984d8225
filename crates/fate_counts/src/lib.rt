// Sectors counted by their fates, for the report (document 01, "The report").
#![tactic(auto)]

ghost use Rattle.std.specs.Prelude.{◌≡◌};
ghost use Rattle.fate_counts.specs.Counting.{one_more_of, none_counted, counted_with};

use address::HeaderTime;

// What became of a Sector: clean or repaired with the time handed out, and then the changed count; or refused with its number.
#[derive(Clone, Copy)]
pub enum Fate {
    Clean(HeaderTime),
    Repaired(HeaderTime, u64),
    Refused(u64),
}

// How many Sectors there were so far, which is the index of the next one, and how many of each fate.
#[derive(Clone, Copy)]
pub struct Counts {
    pub sectors: u64,
    pub clean: u64,
    pub repaired: u64,
    pub refused: u64,
}

// One more; the largest number stays.
fn one_more(n: u64) -> u64
    ensures { result ≡ one_more_of n }
{
    n.saturating_add(1)
}

impl Counts {
    // Before the first Sector.
    pub fn none() -> Self
        ensures { result ≡ none_counted }
    {
        Counts {
            sectors: 0,
            clean: 0,
            repaired: 0,
            refused: 0,
        }
    }

    // After one more Sector.
    pub fn counted(self, fate: Fate) -> Self
        ensures { result ≡ counted_with self fate }
    {
        let mut next = self;
        next.sectors = one_more(self.sectors);
        match fate {
            Fate::Clean(_) => {
                next.clean = one_more(self.clean);
            }
            Fate::Repaired(_, _) => {
                next.repaired = one_more(self.repaired);
            }
            Fate::Refused(_) => {
                next.refused = one_more(self.refused);
            }
        }
        next
    }
}
