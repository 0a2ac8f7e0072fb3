// The word store: lent 32-bit words, two for each lot, its low and then its high.
ghost use Rattle.std.specs.Prelude.{◌≡◌, ℕ, List};
ghost use Rattle.store.specs.Pairs.{paired, unpaired, rewritten};
ghost use Rattle.store.specs.Windows.{found};
ghost use Rattle.store.proofs.Pairs.{rewritten_same};

use store::fault::StoreFault;
use store::half_line::HalfLine;
use store::step::{Step, judge};
use store::store::WindowStore;
use store::window::Window;

#[derive(Drop)]
pub struct WordStore<'a> {
    words: &'a mut [u32],
}

impl<'a> WordStore<'a> {
    // The windows that these words hold. Where their number is odd the last one is never used.
    pub fn new(words: &'a mut [u32]) -> WordStore<'a>
        ensures holds { result.words.now ≡ words.old }
        ensures lent { result.words.ghost_name ≡ words.entry.ghost_name }
    {
        WordStore { words }
    }

    // A lot's window; absent past the last whole pair of words.
    #[tactic(auto, using(store::proofs::Pairs::paired_length, store::proofs::Pairs::paired_found))]
    fn window(&self, place: usize) -> Option<Window>
        ensures { result ≡ found (paired self.now.words.now) place }
    {
        if place < self.words.len() / 2 {
            Some(Window {
                low: self.words[2 * place],
                high: self.words[2 * place + 1],
            })
        } else {
            None
        }
    }
}

impl WindowStore for WordStore<'_> {
    ghost windows = { λ s. paired s.words.now };

    ghost memory = { λ s. s.words.now };

    ghost reached = { λ s ws. rewritten s.words.now ws };

    ghost Frame = { ℕ × List ℕ };

    ghost frame = { λ s. (s.words.ghost_name, unpaired s.words.now) };

    ghost here = { λ s. rewritten_same s.words.now };

    #[tactic(auto, using(store::proofs::Pairs::paired_length))]
    fn lots(&self) -> usize {
        self.words.len() / 2
    }

    fn low(&self, place: usize) -> Option<u32> {
        Some(self.window(place)?.low)
    }

    fn high(&self, place: usize) -> Option<u32> {
        Some(self.window(place)?.high)
    }

    fn trim(&mut self, place: usize, days: HalfLine) -> Result<(), StoreFault> {
        match judge(self.window(place), days)? {
            Step::Stays => {}
            Step::Moves(window) => {
                self.words[2 * place] = window.low;
                self.words[2 * place + 1] = window.high;
            }
        }
        Ok(())
    }
}
