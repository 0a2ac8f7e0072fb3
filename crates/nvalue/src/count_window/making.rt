// Making a count window, and reading it.
ghost use Rattle.std.specs.Prelude.{◌≡◌, ◌<◌, MatchOption};

use super::CountWindow;

impl CountWindow {
    // From floor to ceiling; there is none where the floor lies above the ceiling.
    pub fn new(floor: u32, ceiling: u32) -> Option<CountWindow>
        ensures { MatchOption result (ceiling < floor) (λ w. (w.floor ≡ floor) × (w.ceiling ≡ ceiling)) }
    {
        if floor > ceiling {
            return None;
        }
        Some(CountWindow { floor, ceiling })
    }

    pub fn floor(self) -> u32
        ensures { result ≡ self.floor }
    {
        self.floor
    }

    pub fn ceiling(self) -> u32
        ensures { result ≡ self.ceiling }
    {
        self.ceiling
    }
}
