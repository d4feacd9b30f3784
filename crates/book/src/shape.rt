ghost use Rattle.std.specs.Prelude.{◌≡◌, ◌≤◌, length};
ghost use Rattle.book.specs.Jobs.{Apart, Laid, Opens, EachSized, EachStepped, held};

// Jobs of step numbers in lent memory, of which the first words are used. A book that was opened for a bad number of
// steps or in bad memory is void: it uses no word. The words are the caller's, and those past the used ones stay as the
// caller left them, so the book is a slice and a count.
#[derive(Drop)]
pub struct Book<'a> {
    pub(crate) words: &'a mut [u32],
    pub(crate) steps: usize,
    pub(crate) used: usize,
    ghost within: { used ≤ length words.now },
    ghost idle: { (Opens steps (length words.now) → ⊥) → used ≡ 0 },
    ghost laid: { Opens steps (length words.now) → Laid steps used words.now },
    ghost sized: { EachSized (held used words.now) },
    ghost stepped: { EachStepped steps (held used words.now) },
    ghost apart: { Apart (held used words.now) },
}
