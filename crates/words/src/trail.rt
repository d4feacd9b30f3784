ghost use Rattle.std.specs.Prelude.{◌^◌, ◌<◌, ◌≤◌, length};

// A trail of words, read up to a place between two jobs.
#[derive(Drop)]
pub struct WordTrail<'a> {
    pub(crate) words: &'a [u32],
    pub(crate) at: usize,
    ghost ok: { (at ≤ length words.now) × (length words.now < 2 ^ 64) },
}
