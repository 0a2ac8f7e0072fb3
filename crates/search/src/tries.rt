// A number of tries.
ghost use Rattle.std.specs.Prelude.{◌≡◌, ◌-◌, ◌<◌, Decides};

// How many tries are left.
#[derive(Drop, Debug)]
pub struct Tries {
    left: u32,
}

impl Tries {
    // So many tries.
    pub fn new(left: u32) -> Tries
        ensures { result.left ≡ left }
    {
        Tries { left }
    }

    // Takes one of them. Was one left?
    pub fn take(&mut self) -> bool
        ensures there { Decides result (0 < self.old.left) }
        ensures left { self.new.left ≡ self.old.left - 1 }
    {
        let there = self.left > 0;
        self.left = self.left.saturating_sub(1);
        there
    }
}
