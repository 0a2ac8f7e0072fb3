// The working words that a caller lends, under a guard that clears them when it is put away.
ghost use Rattle.std.specs.Prelude.{◌≡◌, ℕ, ◌<◌, length, slice_index};

// How many working words a call needs.
pub const WORDS: usize = 4096;

// Its end zeroes the lent words, on every way out.
// That there are 4,096 of them is asked by each function that takes them. A guard can't be passed on by value (its
// borrow is not covered), and behind a `&mut` its words are no longer known for those that were lent; an array,
// `&mut [u32; 4096]`, has no known length any more once such a function returns.
pub struct Guard<'a> {
    pub words: &'a mut [u32],
}

impl Drop for Guard<'_> {
    fn drop(self)
        ensures { (k : ℕ) → k < length self.exit.0.now → slice_index self.exit.0.now k ≡ 0 }
    {
        let Guard { words } = self;
        words.fill(0);
    }
}
