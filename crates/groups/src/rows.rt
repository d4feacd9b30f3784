ghost use Rattle.std.specs.Prelude.{◌≡◌, ℕ, ◌<◌, ◌≤◌, MatchBool};
ghost use Rattle.groups.specs.Groups.{In, Inside, Paired, Largest};
ghost use Rattle.groups.specs.Rows.{held, Lawful, Row, JoinsAll, turned};

use crate::bonds::Bond;

// The points that a bond can have.
pub(crate) const POINTS: usize = 64;

// A bond as rows of bits, so that the search asks it nothing: it would ask for the same pairs over and over.
#[derive(Drop)]
pub(crate) struct Rows {
    bits: [u64; POINTS],
    ghost lawful: { Lawful (held bits) },
}

// The points that p is paired with, of a bond of so many.
fn read_row<B: Bond>(bond: &mut B, size: usize, p: usize) -> u64
    requires all { size ≡ B.Bond.points bond.old }
    requires few { size ≤ 64 }
    ensures row { Row (B.Bond.pairs bond.old) p result }
    ensures stays { B.Bond.points bond.new ≡ B.Bond.points bond.old }
    ensures keeps { B.Bond.pairs bond.new ≡ B.Bond.pairs bond.old }
{
    // By numbers, since a bond is asked for numbers. Its size is asked once and handed down, so that it is few is a clause.
    let mut row = 0u64;
    for q in 0..size {
        if bond.pair(p, q) {
            row |= 1u64 << q;
        }
    }
    row
}

impl Rows {
    pub(crate) fn read<B: Bond>(bond: &mut B) -> Rows
        ensures rows { held result.bits ≡ B.Bond.pairs bond.old }
        ensures stays { B.Bond.points bond.new ≡ B.Bond.points bond.old }
        ensures keeps { B.Bond.pairs bond.new ≡ B.Bond.pairs bond.old }
    {
        let size = bond.size();
        // By number: of rows that are written through `iter_mut` under an adapter a proof knows nothing.
        let mut bits = [0u64; POINTS];
        for p in 0..size {
            bits[p] = read_row(bond, size, p);
        }
        Rows { bits }
    }

    // Whether p is paired with every point of the set.
    pub(crate) fn joins(&self, p: usize, set: u64) -> bool
        requires { p < 64 }
        ensures { MatchBool result (JoinsAll (held self.now.bits) p set) (JoinsAll (held self.now.bits) p set → ⊥) }
    {
        set & self.bits[p] == set
    }

    // A group turned about a point: the point, and the points of the group that it is paired with.
    pub(crate) fn turned(&self, group: u64, w: usize) -> u64
        requires { w < 64 }
        ensures { result ≡ turned self.now.bits group w }
    {
        group & self.bits[w] | 1u64 << w
    }

    // A group that holds the set: each point below `points` in turn joins where it is paired with all that is there. Over
    // all points it comes to a largest group.
    fn joined(&self, set: u64, points: usize) -> u64
        requires paired { Paired (held self.now.bits) set }
        requires some { (p : ℕ) × In set p }
        requires points { points ≤ 64 }
        ensures largest { 64 ≤ points → Largest (held self.now.bits) result }
        ensures holds { Inside set result }
    {
        // By numbers, since a point's weight is made of its number.
        let mut group = set;
        for x in 0..points {
            let more = group | 1u64 << x;
            if self.joins(x, more) {
                group = more;
            }
        }
        group
    }

    // A largest group that holds the set.
    pub(crate) fn grown(&self, set: u64) -> u64
        requires paired { Paired (held self.now.bits) set }
        requires some { (p : ℕ) × In set p }
        ensures largest { Largest (held self.now.bits) result }
        ensures holds { Inside set result }
    {
        self.joined(set, POINTS)
    }
}
