//! What can be done with a bounded list.
ghost use Rattle.std.specs.Prelude.{◌≡◌, ◌+◌, ◌<◌, [], ◌∷◌, ◌++◌, length, take, ⊤};
ghost use Rattle.lists.specs.Listed.{listed};

use super::Bounded;
use std::alloc::AllocError;

impl<T: Copy, const N: usize> Bounded<T, N> {
    /// The empty list. In the places that hold nothing stands `filler`; it is asked for, so that a list can hold what has no default.
    pub fn new(filler: T) -> Bounded<T, N>
        ensures { listed result ≡ [] }
    {
        Bounded {
            items: [filler; N],
            len: 0,
        }
    }

    /// Appends `item`.
    pub(crate) fn push(&mut self, item: T)
        requires { length (listed self.old) < N }
        ensures items { listed self.new ≡ listed self.old ++ item ∷ [] }
        ensures len { length (listed self.new) ≡ length (listed self.old) + 1 }
    {
        self.items[self.len] = item;
        self.len += 1;
    }

    /// Appends `item`, if there is room for it.
    pub fn append(&mut self, item: T)
        ensures { listed self.new ≡ take N (listed self.old ++ item ∷ []) }
    {
        if self.len < N {
            self.push(item);
        }
    }

    /// The first `N` of these things.
    pub fn of(filler: T, items: &[T]) -> Bounded<T, N>
        ensures { listed result ≡ take N items.now }
    {
        let mut list = Bounded::new(filler);
        for item in items {
            list.append(*item);
        }
        list
    }

    /// The things in the list, in order.
    pub fn as_slice(&self) -> &[T]
        ensures { result.now ≡ listed self.now }
    {
        let end = self.len;
        let all = &self.items[..];
        &all[0..end]
    }
}

// Written out, since it cannot be derived for a generic struct with ghost fields.
impl<T: Copy, const N: usize> Clone for Bounded<T, N> {
    ghost is_clone = { λ x y. y ≡ x };

    ghost is_infallible = { λ _. ⊤ };

    fn clone(&self) -> Result<Bounded<T, N>, AllocError> {
        Ok(*self)
    }
}
