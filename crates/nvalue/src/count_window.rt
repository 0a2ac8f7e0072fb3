// A count window: from the fewest to the most different days that a stretch may take.
ghost use Rattle.std.specs.Prelude.{◌≤◌};

// None can be made whose floor exceeds its ceiling.
#[derive(Clone, Copy, PartialEq, Eq, Debug)]
pub struct CountWindow {
    floor: u32,
    ceiling: u32,
    ghost ordered: { floor ≤ ceiling },
}

mod making;
