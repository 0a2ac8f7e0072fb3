// A layer that counts the calls which were refused, and shows what the store below shows.
ghost use Rattle.std.specs.Prelude.{◌≡◌, ℕ};

use store::fault::StoreFault;
use store::half_line::HalfLine;
use store::store::WindowStore;

#[derive(Drop)]
pub struct Counting<S> {
    below: S,
    refused: u32,
}

impl<S> Counting<S> {
    pub fn new(below: S) -> Counting<S>
        ensures { (result.below ≡ below) × (result.refused ≡ 0) }
    {
        Counting { below, refused: 0 }
    }

    // How many calls have been refused so far.
    pub fn refused(&self) -> u32
        ensures { result ≡ self.now.refused }
    {
        self.refused
    }
}

impl<S: WindowStore> WindowStore for Counting<S> {
    ghost windows = { λ s. S.WindowStore.windows s.below };

    ghost memory = { λ s. S.WindowStore.memory s.below };

    ghost reached = { λ s ws. S.WindowStore.reached s.below ws };

    ghost Frame = { S.WindowStore.Frame };

    ghost frame = { λ s. S.WindowStore.frame s.below };

    ghost here = { λ s. S.WindowStore.here s.below };

    fn lots(&self) -> usize {
        self.below.lots()
    }

    fn low(&self, place: usize) -> Option<u32> {
        self.below.low(place)
    }

    fn high(&self, place: usize) -> Option<u32> {
        self.below.high(place)
    }

    fn trim(&mut self, place: usize, days: HalfLine) -> Result<(), StoreFault> {
        let result = self.below.trim(place, days);
        if result.is_err() {
            self.refused = self.refused.saturating_add(1);
        }
        result
    }
}
