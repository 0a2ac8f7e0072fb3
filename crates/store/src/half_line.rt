// Half-lines of days: what raise and lower leave of a window lies in one.

// Days without an end on one side.
#[derive(Clone, Copy, PartialEq, Eq, Debug)]
pub enum HalfLine {
    // that day and all later ones
    From(u32),
    // that day and all earlier ones
    UpTo(u32),
}
