ghost use Rattle.std.specs.Prelude.{◌≡◌};
ghost use Rattle.trails.specs.declared.endings.TrailStop.TheVariants.{Fault as OfFault};

// What is wrong at the place from which a trail cannot be read on.
#[derive(Clone, Copy, PartialEq, Eq, Debug)]
pub enum Cause {
    // a word out of turn
    OutOfTurn,
    // a head that is not of 1 to 1,000 events, or the beginning of a line's 1,001st name
    JobSize,
    // the words run out ahead of an end word
    WordsRunOut,
    // low bits set in the end word
    EndBits,
    // a byte that is neither a name byte, a space nor a line end
    OddByte,
    // the ninth byte of a name
    NinthByte,
    // a space or a line end where a name is due
    NameDue,
    // the bytes run out inside a line
    CutLine,
}

// A fault of a trail, and where it stands in the trail.
#[derive(Clone, Copy, PartialEq, Eq, Debug)]
pub struct TrailFault {
    pub cause: Cause,
    pub place: usize,
}

// Why a trail that is asked for a job answers neither one nor that it has come to its end.
#[derive(Clone, Copy, PartialEq, Eq, Debug)]
pub enum TrailStop {
    // the work memory is under 1,000 steps
    ShortWork,
    Fault(TrailFault),
}

impl From<TrailFault> for TrailStop {
    ghost from_gives = { λ f r. r ≡ OfFault f };

    fn from(fault: TrailFault) -> TrailStop {
        TrailStop::Fault(fault)
    }
}
