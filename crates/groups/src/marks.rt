ghost use Rattle.std.specs.Prelude.{MatchBool};
ghost use Rattle.groups.specs.Groups.{Touches};

// The two sets of points of which a group that is listed has one each.
#[derive(Drop)]
pub(crate) struct Marks {
    pub(crate) first: u64,
    pub(crate) second: u64,
}

fn touches(set: u64, mark: u64) -> bool
    ensures { MatchBool result (Touches set mark) (Touches set mark → ⊥) }
{
    set & mark != 0
}

impl Marks {
    // Whether the set touches both.
    pub(crate) fn both_touch(&self, set: u64) -> bool
        ensures { MatchBool result (Touches set self.now.first × Touches set self.now.second) (Touches set self.now.first × Touches set self.now.second → ⊥) }
    {
        touches(set, self.first) && touches(set, self.second)
    }
}
