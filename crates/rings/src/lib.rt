// Delay lines of bytes that stay where they are: rings, one after the other in one flat store, with a place for each row that waits. Definitions and laws
// stand in specs/; the code of a step is in the crates above, and here is what all of it begins with.
#![tactic(auto)]

ghost use Rattle.std.specs.Prelude.{◌≡◌, ◌-◌};

// The smaller of two numbers: how far two lists both go.
pub fn smaller(a: usize, b: usize) -> usize
    ensures { result ≡ a - (a - b) }
{
    a.min(b)
}
