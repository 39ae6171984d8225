// Which words are listed, and a quick pass for them, frame by frame.
ghost use Rattle.std.specs.Prelude.{◌≡◌, true, ◌+◌, ◌*◌, ◌≤◌, length};
ghost use Rattle.words.specs.Words.{words};
ghost use Rattle.words.specs.LookUp.{Guide};
ghost use Rattle.stream_rules.specs.Offences.{listed};
ghost use Rattle.stream_judge.specs.Inner.{WordsRight, WordsClear};

// A word of Annex D.
pub(crate) fn is_listed(table: &[u16; 256], guide: &[u8; 1351], w: u16) -> bool
    requires { (table.now ≡ words) × Guide guide.now }
    ensures { result ≡ listed w }
{
    looking_up::look_up(table, guide, w).is_some()
}

// All words of frame f may stand where they stand.
fn is_frame_right(channel: &[u8], table: &[u16; 256], guide: &[u8; 1351], f: usize) -> bool
    requires { (table.now ≡ words) × Guide guide.now × (length channel.now ≤ 64827) × (588 * f + 588 ≤ 8 * length channel.now) }
    ensures { result ≡ true → WordsRight channel.now f 33 }
{
    let row = f % 98;
    for i in 0..33 {
        let w = fields::field(channel, 588 * f + 27 + 17 * i, 14) as u16;
        let known = is_listed(table, guide, w);
        let right = offence_tests::is_right_word(row, i, w, known);
        if !right {
            return false;
        }
    }
    true
}

// A bit before which no word offends.
pub(crate) fn listed_until(channel: &[u8], n: usize) -> usize
    requires { (length channel.now ≡ 7203 * n) × (1 ≤ n) × (n ≤ 9) }
    ensures { (result ≤ 57624 * n) × WordsClear channel.now result }
{
    let table = words::all_words();
    let guide = words::guide();
    for f in 0..98 * n {
        let right = is_frame_right(channel, &table, &guide, f);
        if !right {
            return 588 * f;
        }
    }
    57624 * n
}
