ghost use Rattle.std.specs.Prelude.{◌≡◌, ◌+◌, ◌^◌, [], length, slice_set};
ghost use Rattle.book.specs.Jobs.{Opens};
ghost use Rattle.book.specs.View.{held_by, memory_of};

use crate::shape::Book;

// Kind 2 of a word, a book's first.
const FIRST: u32 = 0x8000_0000;

impl<'a> Book<'a> {
    // A book that holds no job, for this number of steps. It is void where that is not of 1 to 32 or the memory is not of
    // 2 to 16,384 words.
    pub fn open(words: &'a mut [u32], steps: usize) -> Book<'a>
        ensures steps { result.steps ≡ steps }
        ensures empty { held_by result ≡ [] }
        ensures opened { Opens steps (length words.old) → memory_of result ≡ slice_set words.old 0 (2 ^ 31 + steps) }
        ensures void { (Opens steps (length words.old) → ⊥) → memory_of result ≡ words.old }
        ensures long { length (memory_of result) ≡ length words.old }
        ensures named { result.words.ghost_name ≡ words.entry.ghost_name }
    {
        if steps < 1 || steps > 32 || words.len() < 2 || words.len() > 16_384 {
            return Book {
                words,
                steps,
                used: 0,
            };
        }
        words[0] = FIRST + steps as u32;
        Book {
            words,
            steps,
            used: 1,
        }
    }
}
