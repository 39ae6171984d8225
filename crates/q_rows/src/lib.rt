// The Q codewords of a Sector (Annex A) side by side, their parity included.
#![tactic(auto)]

ghost use Rattle.q_rows.specs.Laid.{Laid};

// `rows` becomes the gathered rows with the Q parity behind them, and the answer is true: the columns of these 45 rows of 52 bytes are the Q
// codewords. Where there are not 2,352 bytes or there is not room for 2,340 nothing changes and the answer is false.
pub fn lay_rows(s: &[u8], rows: &mut [u8]) -> bool
    ensures { Laid s.now rows.old result rows.new }
{
    if s.len() != 2352 {
        return false;
    }
    if rows.len() != 2340 {
        return false;
    }
    gathering::gather(s, &mut rows[..2236]);
    outcome::copy(&s[2248..], &mut rows[2236..]);
    true
}
