// A rule as plain numbers.
use nvalue::stretch::Stretch;

// The most rules that a sheet may have.
pub const RULES: usize = 32;

// The lots of the stretch take from `floor` to `ceiling` different days.
#[derive(Clone, Copy, PartialEq, Eq, Debug, Default)]
pub struct Row {
    pub stretch: Stretch,
    pub floor: u32,
    pub ceiling: u32,
}
