// What a call that declines says of it: five numbers, the same for every layer.
#![tactic(auto)]

ghost use Rattle.std.specs.Prelude.{◌≡◌, ◌++◌, Some, codes, decimal};

use std::fmt;

// Why a call declined, in the five numbers that it is told by outside. The row is the reason, the layer is the part of the
// product that found it (1 trail, 2 roster, 3 book, 4 net), the job and the place say where, and the cause tells the faults
// of a trail apart. What a reason does not name is 0.
#[derive(Clone, Copy, PartialEq, Eq, Debug)]
pub struct Refusal {
    pub row: u8,
    pub layer: u8,
    pub job: u64,
    pub place: usize,
    pub cause: u8,
}

impl Refusal {
    // The refusal of a row in a layer, that names nothing more.
    pub fn new(row: u8, layer: u8) -> Refusal
        ensures { result ≡ record { row = row; layer = layer; job = 0; place = 0; cause = 0 } }
    {
        Refusal {
            row,
            layer,
            job: 0,
            place: 0,
            cause: 0,
        }
    }

    // The same refusal, of the job with this number.
    pub fn at_job(self, job: u64) -> Refusal
        ensures { result ≡ record { row = self.row; layer = self.layer; job = job; place = self.place; cause = self.cause } }
    {
        Refusal { job, ..self }
    }
}

impl fmt::Display for Refusal {
    ghost output = { λ r. Some (codes "REFUSED " ++ (decimal r.row ++ (codes " " ++ (decimal r.layer ++ (codes " " ++ (decimal r.job ++ (codes " " ++ (decimal r.place ++ (codes " " ++ decimal r.cause))))))))) };

    fn fmt<W: fmt::Write>(&self, f: &mut fmt::Formatter<W>) -> fmt::Result {
        let Refusal {
            row,
            layer,
            job,
            place,
            cause,
        } = *self;
        write!(f, "REFUSED {row} {layer} {job} {place} {cause}")
    }
}
