ghost use Rattle.std.specs.Prelude.{◌≡◌, true, ◌↔◌};
ghost use Rattle.runs.specs.Compared.{OfRuns};
ghost use Rattle.runs.specs.Examples.{Examples};
ghost use Rattle.runs.specs.Shown.{Shown};

use steps::{Roster, Step};

// Whether two nets have the same words. Apart from `same_net`, which the check proves of these clauses with no answer.
fn same_words<S: Step>(roster: &Roster<S>, a: &[u32], b: &[u32]) -> bool
    ensures equal { (result ≡ true) ↔ (a.now ≡ b.now) }
    ensures law { OfRuns S.cmp roster.now.entries.now a.now b.now result }
    ensures examples { Examples }
    ensures shown { Shown }
{
    a == b
}

// Whether two drawn nets are equal. Let each be what a draw wrote at the end of a run of calls on a book with this roster: then
// each is the net of the jobs that were accepted in its run, and the answer is yes exactly if the jobs of the two runs agree on
// the five facts. The worked examples are drawn as told, and there is a run with two draws.
pub fn same_net<S: Step>(roster: &Roster<S>, a: &[u32], b: &[u32]) -> bool
    ensures equal { (result ≡ true) ↔ (a.now ≡ b.now) }
    ensures law { OfRuns S.cmp roster.now.entries.now a.now b.now result }
    ensures examples { Examples }
    ensures shown { Shown }
{
    same_words(roster, a, b)
}
