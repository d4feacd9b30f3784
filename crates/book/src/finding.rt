ghost use Rattle.std.specs.Prelude.{◌≡◌, ℕ, ◌+◌, ◌<◌, ◌≤◌, [], length, take, drop, MatchBool, MatchResult, ◌≢◌, slice_index};
ghost use Rattle.book.specs.Enter.{HeldAt, NotHeld};
ghost use Rattle.book.specs.Jobs.{encode, held};

// Kind 1 of a word, a job's head.
pub(crate) const HEAD: u32 = 0x4000_0000;

// Whether the words of a held job's events are those of a job.
fn same(events: &[u32], job: &[u8]) -> bool
    ensures { MatchBool result (events.now ≡ job.now) (events.now ≢ job.now) }
{
    if events.len() != job.len() {
        return false;
    }
    // By place: `all` over `zip` takes a third more for each held job that differs.
    for (k, number) in job.iter().enumerate() {
        if events[k] != u32::from(*number) {
            return false;
        }
    }
    true
}

// The number of the held job that is equal to a job, or else how many are held: as `binary_search`, it answers the place
// that was found or the one that is next.
pub(crate) fn find(words: &[u32], used: usize, job: &[u8]) -> Result<usize, usize>
    requires within { used ≤ length words.now }
    requires laid { drop 1 (take used words.now) ≡ encode (held used words.now) }
    ensures { MatchResult result (λ n. HeldAt (held used words.now) job.now n) (λ n. (n ≡ length (held used words.now)) × NotHeld (held used words.now) job.now) }
{
    // An index, since jobs differ in length, which the word ahead of each tells.
    let mut at = 1;
    let mut n = 0;
    while at < used {
        let len = (words[at] - HEAD) as usize;
        if same(&words[at + 1..at + 1 + len], job) {
            return Ok(n);
        }
        at += 1 + len;
        n += 1;
    }
    Err(n)
}
