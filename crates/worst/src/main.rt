// Bonds that have far more groups than a list can have, or groups of nearly all their points. Each list ends at once.
#![tactic(auto)]

ghost use Rattle.std.specs.Prelude.{◌/◌, ◌<◌, ◌≤◌, not, ◌&&◌, ◌||◌, ◌==◌, nat_le, nat_lt};
ghost use Rattle.std.proofs.Common.{ap₂};
ghost use Rattle.std.proofs.Math.Bool.{and_comm, or_comm};
ghost use Rattle.std.proofs.lemmas.Bool.{and_parts, ltb-true};
ghost use Rattle.std.proofs.lemmas.Cmp.{nat_eq_equiv};

use groups::{Bond, ListFault, list_groups};
use std::io;

const ALL: u64 = u64::MAX;

// Every two points are paired, but for two of the same block. The first points stand in blocks.
#[derive(Drop)]
struct Blocks {
    size: usize,
    blocked: usize,
    block: usize,
    ghost few: { size ≤ 64 },
    ghost some: { 0 < block },
}

impl Blocks {
    fn new(size: usize, blocked: usize, block: usize) -> Blocks
        requires few { size ≤ 64 }
        requires some { 0 < block }
    {
        Blocks {
            size,
            blocked,
            block,
        }
    }
}

impl Bond for Blocks {
    ghost points = { λ s. s.size };

    ghost pairs = { λ s p q. (nat_lt p s.size && nat_lt q s.size) && ((p == q || (nat_le s.blocked p || nat_le s.blocked q)) || not (p / s.block == q / s.block)) };

    ghost few = { λ s. s.few };

    ghost symmetric = { λ s p q. ap₂ (λ x y. x && y) (and_comm (nat_lt p s.size) (nat_lt q s.size))
        (ap₂ (λ x y. x || not y) (ap₂ (λ x y. x || y) (nat_eq_equiv.symm p q) (or_comm (nat_le s.blocked p) (nat_le s.blocked q)))
        (nat_eq_equiv.symm (p / s.block) (q / s.block))) };

    ghost lacks = { λ s p q h. ltb-true p s.size (and_parts _ _ (and_parts _ _ h).0).0 };

    fn size(&mut self) -> usize {
        self.size
    }

    fn pair(&mut self, p: usize, q: usize) -> bool {
        p < self.size
            && q < self.size
            && (p == q
                || (self.blocked <= p || self.blocked <= q)
                || p / self.block != q / self.block)
    }
}

// How many groups are listed, or why not.
fn tell(rt: &HostRuntime, mut bond: Blocks, first: u64, second: u64) -> io::Result<()> {
    let mut list = [0u64; 256];
    let size = bond.size;
    let blocked = bond.blocked;
    let block = bond.block;
    print!(rt; "{size} points, {blocked} in blocks of {block}, marks {first:x} and {second:x}: ")?;
    match list_groups(&mut bond, first, second, &mut list) {
        Ok(count) => println!(rt; "{count}"),
        Err(ListFault::TooMany) => println!(rt; "over 256"),
        Err(ListFault::TooShort) => println!(rt; "too short"),
    }
}

fn main(rt: HostRuntime) -> io::Result<()> {
    // every two points paired, and then blocks of two points up to one block of all
    for block in [1, 2, 4, 8, 16, 32, 64] {
        tell(&rt, Blocks::new(64, 64, block), ALL, ALL)?;
    }
    // the most largest groups that 63 points can have, three to the 21st: all, those of a pair, and none, since the
    // marks are empty or no point of one is paired with a point of the other
    for (first, second) in [(ALL, ALL), (1, 8), (0, ALL), (1, 6)] {
        tell(&rt, Blocks::new(63, 63, 3), first, second)?;
    }
    tell(&rt, Blocks::new(64, 64, 2), 1 << 62, 1 << 63)?;
    tell(&rt, Blocks::new(64, 64, 8), 0xff, 0xff00)?;
    // nearly every two points paired: groups of nearly all points, up to 256 of 56 points, and more than 256
    for blocked in [2, 14, 16, 18] {
        tell(&rt, Blocks::new(64, blocked, 2), ALL, ALL)?;
    }
    tell(&rt, Blocks::new(64, 15, 3), ALL, ALL)?;
    tell(&rt, Blocks::new(64, 16, 2), 1 << 63, 1)
}
