// Alternating reachability: from a day to the days of its mate's window, and on from these. A block of days that
// can be reached, and those of them that are seen.
ghost use Rattle.std.specs.Prelude.{◌+◌, ◌≤◌};

use store::window::Window;

// The days from `from` on and before `to` are seen; those from `low` to `high` can be reached.
#[derive(Clone, Copy)]
pub struct Reach {
    pub from: u32,
    pub to: u32,
    pub low: u32,
    pub high: u32,
    ghost left: { low ≤ from },
    ghost some: { from ≤ to },
    ghost right: { to ≤ high + 1 },
    ghost last: { high ≤ 9999 },
}

impl Reach {
    ghost use Rattle.std.specs.Prelude.{◌≡◌, min, max};
    ghost use Rattle.propagator.specs.Reach.{Steps};

    // No day is seen yet; this one can be reached.
    pub fn at(day: u32) -> Reach
        requires { day ≤ 9999 }
        ensures low { result.low ≡ day }
        ensures high { result.high ≡ day }
        ensures from { result.from ≡ day }
        ensures to { result.to ≡ day }
    {
        Reach {
            from: day,
            to: day,
            low: day,
            high: day,
        }
    }

    // Sees one more day of those that can be reached, on the side of a goal first, which is speed and no promise;
    // none is left where all are seen.
    pub fn step(&mut self, goal: u32) -> Option<u32>
        ensures { Steps self.old result self.new }
    {
        if self.to <= self.high && (self.low == self.from || self.to <= goal) {
            let day = self.to;
            self.to += 1;
            return Some(day);
        }
        if self.low < self.from {
            self.from -= 1;
            return Some(self.from);
        }
        None
    }

    // The days of a window can be reached too.
    pub fn widen(&mut self, window: Window)
        requires { window.high ≤ 9999 }
        ensures low { self.new.low ≡ min self.old.low window.low }
        ensures high { self.new.high ≡ max self.old.high window.high }
        ensures from { self.new.from ≡ self.old.from }
        ensures to { self.new.to ≡ self.old.to }
    {
        self.low = self.low.min(window.low);
        self.high = self.high.max(window.high);
    }
}
