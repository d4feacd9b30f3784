ghost use Rattle.std.specs.Prelude.{◌≡◌, ◌/◌, ◌^◌, ◌<◌};
ghost use Rattle.net.specs.Kinds.{Numbered, number_of};
ghost use Rattle.net.specs.Net.{word as word_of};

// What a word of a net tells: a step that is seen, one that is first or last, a place, a feeder of that place, a step that it
// feeds, a looping step with its place, and how many places there are.
#[derive(Clone, Copy, PartialEq, Eq, PartialOrd, Ord, Debug)]
pub enum Kind {
    Seen = 1,
    First = 2,
    Last = 3,
    Place = 4,
    Feeder = 5,
    Fed = 6,
    Looping = 7,
    Count = 8,
}

impl Kind {
    // The number of the kind.
    fn number(self) -> u32
        ensures { result ≡ number_of self }
    {
        self as u32
    }

    // The kind of a word; none where it is no word of a net.
    pub fn of(word: u32) -> Option<Kind>
        ensures { Numbered (word / 2 ^ 28) result }
    {
        match word >> 28 {
            1 => Some(Kind::Seen),
            2 => Some(Kind::First),
            3 => Some(Kind::Last),
            4 => Some(Kind::Place),
            5 => Some(Kind::Feeder),
            6 => Some(Kind::Fed),
            7 => Some(Kind::Looping),
            8 => Some(Kind::Count),
            _ => None,
        }
    }

    // The word of this kind with the number x.
    pub(crate) fn word(self, x: u32) -> u32
        requires { x < 2 ^ 28 }
        ensures { result ≡ word_of (number_of self) x }
    {
        (self.number() << 28) + x
    }
}
