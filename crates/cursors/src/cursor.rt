ghost use Rattle.std.specs.Prelude.{◌≡◌, ◌^◌, ◌<◌, [], ◌∷◌, length};

// Memory that is written from its start on. What has no room in it is counted, and not written; the count stops at the
// greatest number that a usize has.
#[derive(Drop)]
pub struct Cursor<'a, T> {
    out: &'a mut [T],
    len: usize,
    ghost fits: { (length out.now < 2 ^ 64) × (len < 2 ^ 64) },
}

impl<'a, T> Cursor<'a, T> {
    // At the start of the memory.
    pub fn new(out: &'a mut [T]) -> Cursor<'a, T>
        ensures same_reference { result.out.ghost_name ≡ out.entry.ghost_name }
        ensures memory { result.out.now ≡ out.old }
        ensures count { result.len ≡ 0 }
    {
        Cursor { out, len: 0 }
    }

    // How many items were put, though they be more than the memory has room for.
    pub fn len(&self) -> usize
        ensures { result ≡ self.now.len }
    {
        self.len
    }
}

impl<T: Copy> Cursor<'_, T> {
    ghost use Rattle.cursors.specs.Adds.{Adds};

    // Puts an item.
    pub fn put(&mut self, item: T)
        ensures { Adds self.old (item ∷ []) self.new }
    {
        if self.len < self.out.len() {
            self.out[self.len] = item;
        }
        self.len = self.len.saturating_add(1);
    }

    // Puts items.
    pub fn put_all(&mut self, items: &[T])
        ensures { Adds self.old items.now self.new }
    {
        for item in items {
            self.put(*item);
        }
    }
}
