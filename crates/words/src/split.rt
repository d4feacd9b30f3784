ghost use Rattle.std.specs.Prelude.{◌≡◌};
ghost use Rattle.words.specs.Words.{code_of, word_of};

use crate::kinds::Word;
use steps::Code;

// The thirty bits below the top two.
const LOW: u32 = 0x3fff_ffff;

// The unit in bits 24 to 29, the code in bits 0 to 23. A function, since `Code` is of another crate, as numbers are.
fn code_of(w: u32) -> Code
    ensures { result ≡ code_of w }
{
    Code::new((w >> 24 & 0x3f) as u8, w & 0x00ff_ffff).unwrap()
}

// What a word says, by its top two bits.
impl From<u32> for Word {
    ghost from_gives = { λ w r. r ≡ word_of w };

    fn from(w: u32) -> Word {
        match w >> 30 {
            0 => Word::Event(code_of(w)),
            1 => Word::Head(w & LOW),
            2 => Word::Stop(w & LOW),
            _ => Word::Filler,
        }
    }
}
