ghost use Rattle.std.specs.Prelude.{◌≡◌};
ghost use Rattle.facts.specs.Differences.{none_of};

// Which facts differ between two books.
#[derive(Clone, Copy, PartialEq, Eq, Default, Debug)]
pub struct Differences {
    // which steps are seen
    pub seen: bool,
    // which steps loop, or a looping step's only-before or only-after
    pub loops: bool,
    // which steps are first or last in reduced jobs
    pub ends: bool,
    // which step feeds which
    pub feeds: bool,
    // whether two steps are unrelated that, in both, feed a common step or are fed by one
    pub kin: bool,
}

impl Differences {
    // Whether no fact differs.
    pub fn none(&self) -> bool
        ensures { result ≡ none_of self.now }
    {
        *self == Differences::default()
    }
}
