ghost use Rattle.std.specs.Prelude.{◌≡◌, ℕ, ◌<◌, ◌≤◌, Bool, true};
ghost use Rattle.flow.specs.Flow.{Jobs};
ghost use Rattle.flow.specs.Rows.{Shows};
ghost use Rattle.flow.specs.declared.relations.Relations.{Relations as Rows};
ghost use Rattle.bonds.specs.Pairs.{fed_mark, feeder_mark, place_pairs, places_by, side_mark, side_pairs, sides_by};
ghost use Rattle.bonds.specs.Laws.{places_few, places_lack, places_shown, places_symmetric, sides_few, sides_lack, sides_shown, sides_symmetric};

use flow::Relations;

// What a bond of a book pairs: how many points it has, which of them are pairs, and the two marks of its list.
pub trait BondKind {
    ghost POINTS: { ℕ };

    ghost FIRST_MARK: { ℕ };

    ghost SECOND_MARK: { ℕ };

    // the pairs of jobs, and those that rows tell
    ghost pairs: { Jobs → ℕ → ℕ → Bool };

    ghost pairs_by: { Rows → ℕ → ℕ → Bool };

    const POINTS: usize;

    const FIRST_MARK: u64;

    const SECOND_MARK: u64;

    // Whether two points are a pair.
    fn pair(relations: &Relations, p: usize, q: usize) -> bool
        ensures { result ≡ pairs_by relations.now p q };

    ghost few: { POINTS ≤ 64 };

    ghost symmetric: { (r : Rows) (p q : ℕ) → pairs_by r p q ≡ pairs_by r q p };

    ghost lacks: { (r : Rows) (p q : ℕ) → pairs_by r p q ≡ true → p < POINTS };

    ghost shown: { (js : Jobs) (r : Rows) → Shows js r → pairs_by r ≡ pairs js };
}

// The bond whose listed groups are the places of a book's net: the point s is the step s as feeder, and the point 32 + s
// is the step s as fed.
#[derive(Drop)]
pub struct Places;

impl BondKind for Places {
    ghost POINTS = { 64 };

    ghost FIRST_MARK = { feeder_mark };

    ghost SECOND_MARK = { fed_mark };

    ghost pairs = { place_pairs };

    ghost pairs_by = { places_by };

    ghost few = { places_few };

    ghost symmetric = { places_symmetric };

    ghost lacks = { places_lack };

    ghost shown = { places_shown };

    const POINTS: usize = 64;

    // the feeders
    const FIRST_MARK: u64 = 0x0000_0000_ffff_ffff;

    // the fed steps
    const SECOND_MARK: u64 = 0xffff_ffff_0000_0000;

    fn pair(relations: &Relations, p: usize, q: usize) -> bool {
        if p >= 64 || q >= 64 {
            return false;
        }
        match (p < 32, q < 32) {
            (true, true) => relations.unrelated(p, q),
            (true, false) => relations.leads(p, q - 32),
            (false, true) => relations.leads(q, p - 32),
            (false, false) => relations.unrelated(p - 32, q - 32),
        }
    }
}

// The bond whose groups are the steps of a book that run side by side.
#[derive(Drop)]
pub struct Sides;

impl BondKind for Sides {
    ghost POINTS = { 32 };

    ghost FIRST_MARK = { side_mark };

    ghost SECOND_MARK = { side_mark };

    ghost pairs = { side_pairs };

    ghost pairs_by = { sides_by };

    ghost few = { sides_few };

    ghost symmetric = { sides_symmetric };

    ghost lacks = { sides_lack };

    ghost shown = { sides_shown };

    const POINTS: usize = 32;

    // all steps, both times
    const FIRST_MARK: u64 = 0x0000_0000_ffff_ffff;

    const SECOND_MARK: u64 = 0x0000_0000_ffff_ffff;

    fn pair(relations: &Relations, p: usize, q: usize) -> bool {
        if p >= 32 || q >= 32 {
            return false;
        }
        if p == q {
            relations.stands(p)
        } else {
            relations.beside(p, q)
        }
    }
}
