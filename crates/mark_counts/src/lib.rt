// Marks (document 02, §7): one that is not 0 says that its byte is lost.
#![tactic(auto, using(crate::proofs::Counting::weight_is_count))]

ghost use Rattle.std.specs.Prelude.{◌≡◌, eqb};
ghost use Rattle.codeword.specs.Code.{weight};

// Whether none is marked: a look that a processor takes at many bytes at a time.
fn unmarked(marks: &[u8]) -> bool
    ensures { result ≡ eqb (weight marks.now) 0 }
{
    marks.iter().fold(0u8, |any, mark| any | *mark) == 0
}

fn counted(marks: &[u8]) -> usize
    ensures { result ≡ weight marks.now }
{
    marks.iter().filter(|mark| **mark != 0).count()
}

// How many bytes are marked; mostly none is.
pub fn count_marked(marks: &[u8]) -> usize
    ensures { result ≡ weight marks.now }
{
    if unmarked(marks) {
        return 0;
    }
    counted(marks)
}
