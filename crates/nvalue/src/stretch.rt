// A stretch: `length` lots in a row, from the lot `first` on.
ghost use Rattle.std.specs.Prelude.{Decides};

#[derive(Clone, Copy, PartialEq, Eq, Debug, Default)]
pub struct Stretch {
    pub first: usize,
    pub length: usize,
}

impl Stretch {
    ghost use Rattle.std.specs.Prelude.{◌+◌, ◌<◌, ◌≤◌};
    ghost use Rattle.nvalue.specs.Stretches.{LiesWithin, Over};

    // Has the stretch a lot, and does it end with the last of so many lots at the latest?
    pub fn lies_within(self, lots: usize) -> bool
        ensures { Decides result (LiesWithin lots self) }
    {
        self.length > 0 && self.length <= lots && self.first <= lots - self.length
    }

    // Is the lot one of the stretch?
    pub fn has(self, lot: usize) -> bool
        ensures { Decides result (Over self lot) }
    {
        self.first <= lot && lot - self.first < self.length
    }
}
