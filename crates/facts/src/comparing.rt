ghost use Rattle.std.specs.Prelude.{◌≡◌, true, false, ◌↔◌};
ghost use Rattle.book.specs.View.{held_by};
ghost use Rattle.flow.specs.Facts.{Agree};
ghost use Rattle.facts.specs.Compared.{DiffersBy, SameEndsBy};
ghost use Rattle.facts.specs.Differences.{Differs, SoDraws, SoNets, none_of};

use crate::both::Both;
use crate::sets::sets_differ;
use crate::shape::Differences;
use book::Book;
use flow::Relations;

impl Both {
    // Whether other steps are first, or last, in the one than in the other.
    fn ends_differ(&self) -> bool
        ensures { (result ≡ false) ↔ SameEndsBy self.now }
    {
        sets_differ(self.one.first, self.other.first) || sets_differ(self.one.last, self.other.last)
    }

    // Which facts differ, by the rows.
    fn differences(&self) -> Differences
        ensures { DiffersBy self.now result }
    {
        Differences {
            seen: sets_differ(self.one.seen, self.other.seen),
            loops: self.loops_differ(),
            ends: self.ends_differ(),
            feeds: self.feeds_differ(),
            kin: self.kin_differ(),
        }
    }
}

// Which facts differ between the jobs of two books: none exactly if the jobs agree on all five, and so exactly if their
// nets, where both have one, are equal. Where none differs, both are drawn alike, and declined alike.
pub fn differences(a: &Book, b: &Book) -> Differences
    ensures each { Differs (held_by a.now) (held_by b.now) result }
    ensures agree { (none_of result ≡ true) ↔ Agree (held_by a.now) (held_by b.now) }
    ensures nets { SoNets (held_by a.now) (held_by b.now) result }
    ensures draws { SoDraws (held_by a.now) (held_by b.now) result }
{
    Both {
        one: Relations::of(a),
        other: Relations::of(b),
    }
    .differences()
}
