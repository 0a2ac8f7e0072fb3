// Drawing small sheets, the same ones in every run.
use answers::small::Small;
use nvalue::stretch::Stretch;
use rules::row::Row;
use std::alloc::{AllocError, Global};
use std::array;
use store::window::Window;

// Each sheet takes so many draws, however many of them it keeps.
const LOTS: usize = 4;

const RULES: usize = 3;

#[derive(Drop)]
pub struct Draw {
    state: u64,
}

impl Draw {
    pub fn new(seed: u64) -> Draw {
        Draw { state: seed }
    }

    // A number below n, 0 where n is 0.
    fn below(&mut self, n: u32) -> u32 {
        self.state = self
            .state
            .wrapping_mul(6364136223846793005)
            .wrapping_add(1442695040888963407);
        let drawn = ((self.state >> 33) & 0xffff) as u32;
        drawn.checked_rem(n).unwrap_or(0)
    }

    // Three or four lots within six days, and one to three rules over stretches that mostly overlap.
    pub fn sheet(&mut self, alloc: Global) -> Result<Small, AllocError> {
        let lots = 3 + self.below(2) as usize;
        let windows: [Window; LOTS] = array::from_fn(|_| self.window());
        let used = 1 + self.below(3) as usize;
        let rules: [Row; RULES] = array::from_fn(|_| self.rule(lots));
        Ok(Small {
            windows: windows.iter().copied().take(lots).collect(alloc)?,
            rules: rules.iter().copied().take(used).collect(alloc)?,
        })
    }

    fn window(&mut self) -> Window {
        let low = self.below(4);
        let high = low.saturating_add(self.below(4));
        Window { low, high }
    }

    fn rule(&mut self, lots: usize) -> Row {
        let first = self.below(2) as usize;
        let rest = (lots.saturating_sub(first) & 0xff) as u32;
        let length = 1 + self.below(rest) as usize;
        let floor = self.below(4).saturating_sub(1);
        let ceiling = floor.max(self.below(3)).saturating_add(1);
        Row {
            stretch: Stretch { first, length },
            floor,
            ceiling,
        }
    }
}
