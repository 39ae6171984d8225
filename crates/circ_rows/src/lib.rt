// What stands in the rows of the CIRC writer (clause 17, Annex C): the bytes of an F1-frame, then Q in the C2 word, then P in the C1 word.
#![tactic(auto)]

ghost use Rattle.std.specs.Prelude.{◌≡◌};
ghost use Rattle.circ.specs.Rows.{placed};
ghost use Rattle.circ.specs.Chains.{with_q, with_p};
ghost use Rattle.circ.specs.Codes.{q_of, p_of};

// The 28 rows of an F1-frame.
pub fn place(frame: [u8; 24]) -> [u8; 28]
    ensures { result ≡ placed frame }
{
    [
        frame[0], frame[1], frame[8], frame[9], frame[16], frame[17], frame[2], frame[3],
        frame[10], frame[11], frame[18], frame[19], 0, 0, 0, 0, frame[4], frame[5], frame[12],
        frame[13], frame[20], frame[21], frame[6], frame[7], frame[14], frame[15], frame[22],
        frame[23],
    ]
}

// The C2 word: Q goes into rows 12 to 15.
pub fn fill_q(rows: [u8; 28]) -> [u8; 28]
    ensures { result ≡ with_q q_of rows }
{
    let q = generator::parity_at_12(rows);
    let mut word = rows;
    word[12] = q[0];
    word[13] = q[1];
    word[14] = q[2];
    word[15] = q[3];
    word
}

// The C1 word: P goes into rows 28 to 31.
pub fn fill_p(rows: [u8; 28]) -> [u8; 32]
    ensures { result ≡ with_p p_of rows }
{
    let p = generator::parity_at_end(&rows);
    let mut word = [0u8; 32];
    outcome::copy(&p, &mut word[28..]);
    outcome::copy(&rows, &mut word[..28]);
    word
}
