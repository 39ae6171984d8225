// How an answer is told to a caller in another language: its number comes back, and the values that come with it go into lent memory.
#![tactic(auto)]

ghost use Rattle.std.specs.Prelude.{◌≡◌, ⊤, []};
ghost use Rattle.outcome.specs.Say.{said_by};
ghost use Rattle.told.specs.Told.{number_of};

use outcome::Refusal;

// The number of an answer with which no value comes: 0 where it is done.
pub fn number<E: Refusal>(answer: Result<(), E>) -> u8
    ensures { result ≡ number_of (said_by (λ w. []) E.refusal_of answer) }
{
    match answer {
        Ok(()) => 0,
        Err(e) => e.number(),
    }
}

// A number, and the values that come with it.
pub fn tell<const N: usize>(number: u8, given: [u64; N], values: &mut [u64; N]) -> u8
    ensures { (result ≡ number) × (values.new ≡ given.entry) }
{
    *values = given;
    number
}
