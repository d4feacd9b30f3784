ghost use Rattle.std.specs.Prelude.{◌/◌, ◌^◌, ◌≤◌, ◌&&◌, ◌||◌, ◌==◌, bit_and, nat_lt, slice_index};
ghost use Rattle.std.proofs.Common.{ap₂};
ghost use Rattle.std.proofs.Math.Bool.{and_comm, or_comm};
ghost use Rattle.std.proofs.lemmas.Bool.{and_parts, ltb-true};

use groups::Bond;

// A bond that is drawn by hand: two of its points are paired where either has the other in its row. It counts what it
// is asked.
#[derive(Drop)]
pub struct Drawn {
    size: usize,
    rows: [u64; 64],
    asked: usize,
    ghost few: { size ≤ 64 },
}

impl Drawn {
    // The rows that are not given are empty.
    pub(crate) fn new(size: usize, drawn: &[u64]) -> Drawn
        requires { size ≤ 64 }
    {
        let mut rows = [0; 64];
        for (row, given) in rows.iter_mut().zip(drawn) {
            *row = *given;
        }
        Drawn {
            size,
            rows,
            asked: 0,
        }
    }

    pub(crate) fn asked(&self) -> usize {
        self.asked
    }
}

impl Bond for Drawn {
    ghost points = { λ s. s.size };

    ghost pairs = { λ s p q. (nat_lt p s.size && nat_lt q s.size) && (bit_and (slice_index s.rows p / 2 ^ q) 1 == 1 || bit_and (slice_index s.rows q / 2 ^ p) 1 == 1) };

    ghost few = { λ s. s.few };

    ghost symmetric = { λ s p q. ap₂ (λ x y. x && y) (and_comm (nat_lt p s.size) (nat_lt q s.size)) (or_comm (bit_and (slice_index s.rows p / 2 ^ q) 1 == 1) (bit_and (slice_index s.rows q / 2 ^ p) 1 == 1)) };

    ghost lacks = { λ s p q h. ltb-true p s.size (and_parts _ _ (and_parts _ _ h).0).0 };

    fn size(&mut self) -> usize {
        self.size
    }

    fn pair(&mut self, p: usize, q: usize) -> bool {
        self.asked = self.asked.wrapping_add(1);
        p < self.size && q < self.size && (self.rows[p] >> q & 1 == 1 || self.rows[q] >> p & 1 == 1)
    }
}
