// A small sheet: the windows of a few lots, and a few rules over them.
ghost use Rattle.std.specs.Prelude.{◌≡◌, IfOk};
ghost use Rattle.rules.specs.Sheets.{row};
ghost use Rattle.answers.specs.Smalls.{Holds, days_of, windows_of};

use nvalue::stretch::Stretch;
use rules::row::Row;
use std::alloc::{AllocError, Global};
use store::window::Window;

#[derive(Clone, PartialEq, Eq, Drop)]
pub struct Small {
    pub windows: Vec<Window>,
    pub rules: Vec<Row>,
}

impl Small {
    // A sheet of these first and last days.
    pub fn new(alloc: Global, ends: &[(u32, u32)], rules: &[Row]) -> Result<Small, AllocError>
        ensures { IfOk result (λ sheet. Holds sheet (windows_of ends.now) rules.now) }
    {
        Ok(Small {
            windows: ends
                .iter()
                .map(|(low, high)| window(*low, *high))
                .collect(alloc)?,
            rules: rules.to_vec(alloc)?,
        })
    }

    // A sheet that leaves each lot just this day.
    pub fn fixed(alloc: Global, days: &[u32], rules: &[Row]) -> Result<Small, AllocError>
        ensures { IfOk result (λ sheet. Holds sheet (days_of days.now) rules.now) }
    {
        Ok(Small {
            windows: days.iter().map(|day| window(*day, *day)).collect(alloc)?,
            rules: rules.to_vec(alloc)?,
        })
    }
}

// The days from `low` to `high`.
pub fn window(low: u32, high: u32) -> Window
    ensures { result ≡ record { low = low; high = high } }
{
    Window { low, high }
}

// The `length` lots from the lot `first` on take from `floor` to `ceiling` different days.
pub fn rule(first: usize, length: usize, floor: u32, ceiling: u32) -> Row
    ensures { result ≡ row first length floor ceiling }
{
    let stretch = Stretch { first, length };
    Row {
        stretch,
        floor,
        ceiling,
    }
}
