// A list by value, of at most N things: rooms are copied, and no heap is needed for them.
ghost use Rattle.std.specs.Prelude.{◌≡◌, ◌≤◌, [], ◌∷◌, ◌++◌, length, Some, None, MatchOption, IsPermutation, ⊤};
ghost use Rattle.std.specs.List.Sorted.{IsNonDecreasing};

use std::alloc::AllocError;

pub struct Few<T, const N: usize> {
    // what lies behind the first len is not read
    pub(crate) held: [T; N],
    pub(crate) len: usize,
    ghost few: { len ≤ N },
}

// written out: the derive of `Clone` refuses a generic struct with a ghost field
impl<T: Copy, const N: usize> Clone for Few<T, N> {
    ghost is_clone = { λ x y. y ≡ x };

    ghost is_infallible = { λ _. ⊤ };

    fn clone(&self) -> Result<Few<T, N>, AllocError> {
        Ok(*self)
    }
}

impl<T: Copy, const N: usize> Copy for Few<T, N> {}

impl<T: Copy, const N: usize> Few<T, N> {
    ghost use Rattle.rooms.specs.Few.{items_of};

    // An empty list: each place holds a blank.
    pub fn new(blank: T) -> Few<T, N>
        ensures { items_of result ≡ [] }
    {
        Few {
            held: [blank; N],
            len: 0,
        }
    }

    // One thing more, or None where there is no place left.
    pub fn push(&mut self, item: T) -> Option<()>
        ensures { MatchOption result
            ((N ≤ length (items_of self.old)) × (self.new ≡ self.old))
            (λ _. items_of self.new ≡ items_of self.old ++ item ∷ []) }
    {
        if self.len == N {
            return None;
        }
        self.held[self.len] = item;
        self.len += 1;
        Some(())
    }

    // The things, in the order in which they came.
    pub fn as_slice(&self) -> &[T]
        ensures { result.now ≡ items_of self.now }
    {
        &self.held[..self.len]
    }
}

impl<const N: usize> Few<u16, N> {
    ghost use Rattle.rooms.specs.Few.{items_of};

    // Puts the numbers in rising order.
    pub fn sort(&mut self)
        ensures same { IsPermutation (items_of self.old) (items_of self.new) }
        ensures rising { IsNonDecreasing (items_of self.new) }
    {
        self.held[..self.len].sort_unstable();
    }
}
