// Single tests of the judge of Sections (document 02, §12): which words may stand where, and which number is told of several offences at one bit.
#![tactic(auto)]

ghost use Rattle.std.specs.Prelude.{◌≡◌};
ghost use Rattle.stream_rules.specs.Judging.{lowest};
ghost use Rattle.offence_tests.specs.Known.{number_of, right_if, wrong_if};

// What offends at a bit.
#[derive(Clone, Copy, Debug, PartialEq, Eq)]
pub enum Offence {
    Run,
    Header,
    Word,
}

// Of all that offends at a bit, that with the lowest number.
pub fn lowest(run: bool, head: bool, word: bool) -> Option<Offence>
    ensures { number_of result ≡ lowest run head word }
{
    if run {
        Some(Offence::Run)
    } else if head {
        Some(Offence::Header)
    } else if word {
        Some(Offence::Word)
    } else {
        None
    }
}

// What may stand at place i of frame f of a Section; `known` says whether w is a word of Annex D.
pub fn is_right_word(f: usize, i: usize, w: u16, known: bool) -> bool
    ensures { result ≡ right_if known f i w }
{
    match (f, i) {
        (0, 0) => w == 0b00100000000001,
        (1, 0) => w == 0b00000000010010,
        _ => known,
    }
}

// A word begins at bit p, and w may not stand there; `known` says whether w is a word of Annex D.
#[tactic(auto, unfolding(stream_rules::specs::Offences::word_place))]
pub fn is_word_wrong(p: usize, w: u16, known: bool) -> bool
    ensures { result ≡ wrong_if known p w }
{
    let m = p % 588;
    m >= 27 && (m - 27) % 17 == 0 && !is_right_word(p / 588 % 98, (m - 27) / 17, w, known)
}
