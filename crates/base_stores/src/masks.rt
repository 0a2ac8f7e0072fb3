// The mask store: a lent 64-bit number for each lot, in which bit d stands for day d.
ghost use Rattle.std.specs.Prelude.{◌≡◌, ℕ, ◌<◌, ◌≤◌, List, map};
ghost use Rattle.base_stores.specs.Masks.{window_of_mask, filled, kept, Spans, Fills};
ghost use Rattle.store.proofs.Each.{each_same, where_window_same};
ghost use Rattle.store.specs.Each.{each};
ghost use Rattle.store.specs.Windows.{window, found};

use store::fault::StoreFault;
use store::half_line::HalfLine;
use store::step::{Step, judge};
use store::store::WindowStore;
use store::window::Window;

// Not one generic type with the word store: that both lend a slice is all that they share.
#[derive(Drop)]
pub struct MaskStore<'a> {
    masks: &'a mut [u64],
}

impl<'a> MaskStore<'a> {
    // The windows that these masks show, one for each lot.
    pub fn new(masks: &'a mut [u64]) -> MaskStore<'a>
        ensures holds { result.masks.now ≡ masks.old }
        ensures lent { result.masks.ghost_name ≡ masks.entry.ghost_name }
    {
        MaskStore { masks }
    }

    // A lot's window; absent past the last mask.
    fn window(&self, place: usize) -> Option<Window>
        ensures value { result ≡ found (map window_of_mask self.now.masks.now) place }
    {
        Some(mask_window(*self.masks.get(place)?))
    }
}

impl WindowStore for MaskStore<'_> {
    ghost windows = { λ s. map window_of_mask s.masks.now };

    ghost memory = { λ s. s.masks.now };

    ghost reached = { λ s ws. each kept s.masks.now ws };

    ghost Frame = { ℕ };

    ghost frame = { λ s. s.masks.ghost_name };

    ghost here = { λ s. each_same window_of_mask kept
        (λ mask. where_window_same (window_of_mask mask) mask _) s.masks.now };

    fn lots(&self) -> usize {
        self.masks.len()
    }

    fn low(&self, place: usize) -> Option<u32> {
        Some(self.window(place)?.low)
    }

    fn high(&self, place: usize) -> Option<u32> {
        Some(self.window(place)?.high)
    }

    fn trim(&mut self, place: usize, days: HalfLine) -> Result<(), StoreFault> {
        match judge(self.window(place), days)? {
            Step::Stays => {}
            Step::Moves(window) => self.masks[place] = fill(window),
        }
        Ok(())
    }
}

// From the lowest set bit of a mask to the highest.
fn mask_window(mask: u64) -> Window
    ensures value { result ≡ window_of_mask mask }
    ensures spans { 0 < mask → Spans mask result }
    ensures bare { mask ≡ 0 → result ≡ window 64 0 }
{
    Window {
        low: mask.trailing_zeros(),
        high: 63u32.saturating_sub(mask.leading_zeros()),
    }
}

// The mask whose set bits are just the days of a window.
fn fill(window: Window) -> u64
    requires ordered { window.low ≤ window.high }
    requires within { window.high ≤ 63 }
    ensures value { result ≡ filled window.low window.high }
    ensures fills { Fills result window.low window.high }
{
    (u64::MAX >> (63 - window.high)) - ((1 << window.low) - 1)
}
