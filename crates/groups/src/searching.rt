ghost use Rattle.std.specs.Prelude.{◌<◌, Contains};
ghost use Rattle.groups.specs.Groups.{Paired};
ghost use Rattle.groups.specs.Rows.{held};
ghost use Rattle.groups.specs.Found.{Holds, Whole, OrMany};

use crate::faults::ListFault;
use crate::found::{Found, add};
use crate::marks::Marks;
use crate::rows::{POINTS, Rows};

// What is found so far of the largest groups of the rows that touch both marks.
#[derive(Drop)]
struct Search {
    rows: Rows,
    marks: Marks,
    found: Found,
    ghost holds: { ∥ Holds rows marks found.items ∥₁ },
}

impl Search {
    ghost use Rattle.groups.specs.Search.{Kept, Covered, SeededAt, Seeded, ClosedAt};

    // Finds a largest group that holds the set, where the set touches both marks.
    fn cover(&mut self, set: u64) -> Result<(), ListFault>
        requires { Paired (held self.old.rows.bits) set }
        ensures { OrMany self.old.rows self.old.marks result (λ _. Covered self.old self.new set) }
    {
        if !self.marks.both_touch(set) {
            return Ok(());
        }
        let group = self.rows.grown(set);
        if self.found.contains(&group) {
            return Ok(());
        }
        add(&mut self.found, group)
    }

    // Covers u with each point that it is paired with.
    fn seed_at(&mut self, u: usize) -> Result<(), ListFault>
        requires { u < 64 }
        ensures { OrMany self.old.rows self.old.marks result (λ _. Kept self.old self.new × SeededAt self.new u 64) }
    {
        // By numbers here and below, since a point's weight is made of its number.
        for v in 0..POINTS {
            let set = 1u64 << u | 1u64 << v;
            if self.rows.joins(u, set) && self.rows.joins(v, set) {
                self.cover(set)?;
            }
        }
        Ok(())
    }

    // Covers every two points that are paired. A group that touches both marks has two such points, one of each mark, so
    // that the search comes near every group that it is to find.
    fn seed(&mut self) -> Result<(), ListFault>
        ensures { OrMany self.old.rows self.old.marks result (λ _. Kept self.old self.new × Seeded self.new 64) }
    {
        for u in 0..POINTS {
            self.seed_at(u)?;
        }
        Ok(())
    }

    // Turns a group about each point: covers the point with those of the group that it is paired with. Where these are the
    // group itself, it is found already.
    fn turn(&mut self, group: u64) -> Result<(), ListFault>
        requires { Contains self.old.found.items group }
        ensures { OrMany self.old.rows self.old.marks result (λ _. Kept self.old self.new × ClosedAt self.new group 64) }
    {
        for w in 0..POINTS {
            let set = self.rows.turned(group, w);
            if set != group && self.rows.joins(w, set) {
                self.cover(set)?;
            }
        }
        Ok(())
    }

    // Turns every group. One turn about each point of a group leads to it from any group that shares a point of each mark
    // with it, so none is missed.
    fn close(&mut self) -> Result<(), ListFault>
        requires { Seeded self.old 64 }
        ensures { OrMany self.old.rows self.old.marks result (λ _. Whole self.old.rows self.old.marks self.new.found.items) }
    {
        // An index, since groups come meanwhile.
        let mut i = 0;
        while i < self.found.len() {
            let group = self.found[i];
            self.turn(group)?;
            i += 1;
        }
        Ok(())
    }
}

// Every largest group that touches both marks.
pub(crate) fn find_groups(rows: Rows, marks: Marks) -> Result<Found, ListFault>
    ensures { OrMany rows marks result (λ found. Whole rows marks found.items) }
{
    let mut search = Search {
        rows,
        marks,
        found: Found::new(),
    };
    search.seed()?;
    search.close()?;
    Ok(search.found)
}
