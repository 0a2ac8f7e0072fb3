// Every choice of a day for each lot.
use itertools::Itertools;
use std::alloc::{AllocError, Global};
use store::window::Window;

// A day for each lot.
pub type Days = Vec<u32>;

// Every choice of a day from each window, in order: the days of the last lot change fastest.
pub fn all_choices(alloc: Global, windows: &[Window]) -> Result<Vec<Days>, AllocError> {
    windows
        .iter()
        .map(|window| window.low..=window.high)
        .multi_cartesian_product(alloc)?
        .try_collect(alloc)
}

// The same choices one after the other, in one room: thousands of sheets are settled and planned, and with a list of
// all choices of each the program took twice as long.
#[derive(Drop)]
pub struct Choices<'a> {
    windows: &'a [Window],
    days: Days,
    is_first: bool,
}

impl<'a> Choices<'a> {
    pub fn new(alloc: Global, windows: &'a [Window]) -> Result<Choices<'a>, AllocError> {
        Ok(Choices {
            windows,
            days: windows.iter().map(|window| window.low).collect(alloc)?,
            is_first: true,
        })
    }

    // Goes back to before the first choice.
    pub fn restart(&mut self) {
        for (day, window) in self.days.iter_mut().zip(self.windows) {
            *day = window.low;
        }
        self.is_first = true;
    }

    // The next choice; absent where there is no more.
    pub fn next(&mut self) -> Option<&[u32]> {
        let there = if self.is_first {
            self.windows.iter().all(|window| window.low <= window.high)
        } else {
            step(self.windows, &mut self.days)
        };
        self.is_first = false;
        if there { Some(&self.days) } else { None }
    }
}

// The last lot that can go a day up does, and all behind it go back to their first day. Was there such a lot?
fn step(windows: &[Window], days: &mut [u32]) -> bool {
    for (lot, window) in windows.iter().enumerate().rev() {
        if let Some(day) = days.get_mut(lot) {
            if *day < window.high {
                *day = day.saturating_add(1);
                return true;
            }
            *day = window.low;
        }
    }
    false
}
