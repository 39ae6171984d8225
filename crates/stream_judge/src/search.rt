// The search bit by bit: a window of 35 bits goes over the stream, eleven before a bit and 24 from it on.
ghost use Rattle.std.specs.Prelude.{◌≡◌, ◌*◌, ◌≤◌, length};
ghost use Rattle.words.specs.Words.{words};
ghost use Rattle.words.specs.LookUp.{Guide};
ghost use Rattle.stream_windows.specs.Window.{word_wrong, offence_in};
ghost use Rattle.offence_tests.specs.Known.{number_of};
ghost use Rattle.stream_judge.specs.Inner.{NoneBefore, Finds};

use crate::{taken, words_listed};
use offence_tests::Offence;

// A word or SYNC offends.
fn word_wrong(table: &[u16; 256], guide: &[u8; 1351], p: usize, v: u64) -> bool
    requires { (table.now ≡ words) × Guide guide.now }
    ensures { result ≡ word_wrong p v }
{
    let w = (v % 16777216 / 1024) as u16;
    let known = words_listed::is_listed(table, guide, w);
    offence_tests::is_word_wrong(p, w, known)
}

// The offence that a window shows.
fn offence_in(table: &[u16; 256], guide: &[u8; 1351], p: usize, v: u64) -> Option<Offence>
    requires { (table.now ≡ words) × Guide guide.now }
    ensures { number_of result ≡ offence_in p v }
{
    let run = stream_windows::run_in(v);
    let head = stream_windows::head_wrong(v, p);
    let word = word_wrong(table, guide, p, v);
    offence_tests::lowest(run, head, word)
}

// The first offence, where there is none before bit `start`.
pub(crate) fn search_from(channel: &[u8], n: usize, start: usize) -> Option<(Offence, usize)>
    requires { (length channel.now ≡ 7203 * n) × (n ≤ 9) × (start ≤ 57624 * n) × NoneBefore channel.now start }
    ensures { Finds channel.now result }
{
    let table = words::all_words();
    let guide = words::guide();
    let total = 8 * channel.len();
    let mut v = taken::window_at(channel, start);
    for p in start..total {
        if let Some(offence) = offence_in(&table, &guide, p, v) {
            return Some((offence, p));
        }
        let b = judged_bits::bit_at(channel, p + 40);
        v = (2 * v + b) % 34359738368;
    }
    let Some(offence) = offence_in(&table, &guide, total, v) else {
        return None;
    };
    Some((offence, total))
}
