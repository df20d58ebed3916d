// An array of which the first items count.
ghost use Rattle.std.specs.Prelude.{◌≤◌};

// How many items there are stands beside them: a program here has no heap.
#[derive(Drop)]
pub(crate) struct Filled<T, const N: usize> {
    items: [T; N],
    size: usize,
    ghost fits: { size ≤ N },
}

impl<T: Copy, const N: usize> Filled<T, N> {
    // None of the items yet.
    pub(crate) fn new(filler: T) -> Filled<T, N> {
        Filled {
            items: [filler; N],
            size: 0,
        }
    }

    // None of them again.
    pub(crate) fn clear(&mut self) {
        self.size = 0;
    }

    pub(crate) fn items(&self) -> &[T] {
        &self.items[..self.size]
    }

    // One more, where there is room for it.
    pub(crate) fn push(&mut self, item: T) -> Option<()> {
        if N <= self.size {
            return None;
        }
        self.items[self.size] = item;
        self.size += 1;
        Some(())
    }
}
