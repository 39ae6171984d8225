// What a step of the CIRC reader answers, in two bytes.
#![tactic(auto)]

ghost use Rattle.std.specs.Prelude.{◌≡◌, [], ◌∷◌, get_or};
ghost use Rattle.circ_reader.specs.Answers.{say_of};
ghost use Rattle.told.specs.Told.{number_of, values_of};

use circ::CircError;
use circ_reader::Surety;
use outcome::Refusal;

// The number of the answer, and the doubt mark that comes with a frame, else 0.
pub fn tell(answer: Result<Surety, CircError>) -> [u8; 2]
    ensures { result ≡ number_of (say_of answer) ∷ get_or (values_of (say_of answer)) 0 0 ∷ [] }
{
    match answer {
        Ok(surety) => [0, u8::from(surety)],
        Err(e) => [e.number(), 0],
    }
}
