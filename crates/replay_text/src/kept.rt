// A few items in the value itself.
ghost use Rattle.std.specs.Prelude.{◌≡◌, ◌<◌, ◌≤◌, ◌+◌, ◌++◌, ◌∷◌, [], ◌↔◌, IsTrue, min, length};
ghost use Rattle.replay_text.specs.Kept.{kept_items};

// At most N items, in the order in which they came; what comes later is not kept. A plain value, so that what holds it is one as well.
#[derive(Clone, Copy)]
pub struct Kept<T, const N: usize> {
    items: [T; N],
    count: usize,
}

impl<T: Copy, const N: usize> Kept<T, N> {
    // None yet. The blank stands where no item does.
    pub fn new(blank: T) -> Kept<T, N>
        ensures { result.count ≡ 0 }
    {
        Kept {
            items: [blank; N],
            count: 0,
        }
    }

    pub fn is_empty(&self) -> bool
        ensures { IsTrue result ↔ (self.now.count ≡ 0) }
    {
        self.count == 0
    }

    pub fn push(&mut self, item: T)
        ensures room { self.old.count < N → self.new.count ≡ self.old.count + 1 }
        ensures items { self.old.count < N → kept_items self.new ≡ kept_items self.old ++ item ∷ [] }
        ensures full { N ≤ self.old.count → self.new ≡ self.old }
    {
        if self.count < N {
            self.items[self.count] = item;
            self.count += 1;
        }
    }

    pub fn as_slice(&self) -> &[T]
        ensures len { length result.now ≡ min self.now.count N }
        ensures items { result.now ≡ kept_items self.now }
    {
        &self.items[..self.count.min(N)]
    }
}
