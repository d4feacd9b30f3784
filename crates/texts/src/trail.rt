ghost use Rattle.std.specs.Prelude.{◌^◌, ◌<◌, ◌≤◌, length};

// A trail over a text, read up to an offset at which a line begins. It moves past whole lines only, so that a fault is told
// again each time that it is asked.
#[derive(Drop)]
pub struct TextTrail<'a> {
    pub(crate) text: &'a [u8],
    pub(crate) at: usize,
    ghost ok: { (at ≤ length text.now) × (length text.now < 2 ^ 64) },
}
