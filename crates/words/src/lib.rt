// The 8-to-14 code of Annex D: the words, and a guide to the byte of a word.
#![tactic(auto)]

ghost use Rattle.std.specs.Prelude.{◌≡◌};
ghost use Rattle.words.specs.Words.{words};
ghost use Rattle.words.specs.LookUp.{Guide};

mod table;

// The 256 words. A loop fetches them once: a constant that is indexed in a loop is copied at each look-up.
pub fn all_words() -> [u16; 256]
    ensures { result ≡ words }
{
    table::WORDS
}

// Where to look for a word: under its remainder by 1,351, which no two words share, stands the only byte that it can be; elsewhere 0.
pub fn guide() -> [u8; 1351]
    ensures { Guide result }
{
    table::GUIDE
}
