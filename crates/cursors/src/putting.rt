ghost use Rattle.std.specs.Prelude.{◌≡◌, ◌^◌, ◌-◌, List, ◌<◌, length, min, MatchOption};
ghost use Rattle.cursors.specs.Adds.{Adds, Wrote};

use crate::cursor::Cursor;

// What has items, which are put first to last.
pub trait Put<T: Copy> {
    ghost items: { Self → List T };

    fn put_into(&self, cursor: &mut Cursor<'_, T>)
        ensures { Adds cursor.old (items self.now) cursor.new };
}

// The most items that are written: a count of one more may stand for any greater number.
const MOST: usize = usize::MAX - 1;

// Writes the items at the start of the memory, and leaves the rest as it was. Answers how many there are; none where they
// have no room, and the memory is then as it was.
pub fn write<T: Copy, P: Put<T>>(what: &P, out: &mut [T]) -> Option<usize>
    ensures { MatchOption result ((min (length out.old) (2 ^ 64 - 2) < length (P.items what.now)) × (out.new ≡ out.old)) (λ n. Wrote out.old (P.items what.now) out.new n) }
{
    let mut counter = Cursor::new(&mut []);
    what.put_into(&mut counter);
    if counter.len() > out.len().min(MOST) {
        return None;
    }
    let mut cursor = Cursor::new(out);
    what.put_into(&mut cursor);
    Some(cursor.len())
}
