// The propagation queue: the rules whose propagators are to run. The first in order is taken first.
ghost use Rattle.std.specs.Prelude.{◌≡◌, length};
ghost use Rattle.propagation.specs.Flags.{FindsSet};

use crate::problem::RULES;

// A flag for each rule that a problem has room for. A struct, since an array passed by value has no known length
// inside a loop.
#[derive(Clone, Copy)]
pub struct Queue {
    flags: [bool; RULES],
    ghost room: { length flags ≡ 33 },
}

impl Queue {
    ghost use Rattle.std.specs.Prelude.{ℕ, ◌<◌, ◌≤◌, true, false, slice_set};
    ghost use Rattle.propagation.specs.Queues.{waits, Takes};

    // Every rule waits.
    pub fn all() -> Queue
        ensures { (k : ℕ) → waits result k ≡ true }
    {
        Queue {
            flags: [true; RULES],
        }
    }

    // No rule waits.
    pub fn none() -> Queue
        ensures { (k : ℕ) → k < 33 → waits result k ≡ false }
    {
        Queue {
            flags: [false; RULES],
        }
    }

    // One more rule waits.
    pub fn push(&mut self, number: usize)
        requires { number < 33 }
        ensures { self.new.flags ≡ slice_set self.old.flags number true }
    {
        self.flags[number] = true;
    }

    // Takes the first of so many rules that waits; absent where none does.
    pub(crate) fn pop(&mut self, rules: usize) -> Option<usize>
        requires { rules ≤ 33 }
        ensures { Takes rules self.old result self.new }
    {
        let number = first_of(&self.flags[..rules])?;
        self.flags[number] = false;
        Some(number)
    }
}

// The first flag that is set.
fn first_of(flags: &[bool]) -> Option<usize>
    ensures { FindsSet flags.now result }
{
    flags.iter().position(|flag| *flag)
}
