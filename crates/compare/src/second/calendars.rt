// Calendars and masks, day by day.
use crate::second::choices::Days;
use std::alloc::{AllocError, Global};
use store::window::Window;

// How a day is shown.
#[derive(Clone, Copy)]
pub enum Calendar {
    // as it is
    Plain,
    // as the number of days before this one
    BeforeDispatch(u32),
    // as the number of its week, from 0
    Weeks,
}

impl Calendar {
    fn shown(self, day: u32) -> u32 {
        match self {
            Calendar::Plain => day,
            Calendar::BeforeDispatch(last) => last.saturating_sub(day),
            Calendar::Weeks => day / 7,
        }
    }

    // From the least shown day to the greatest.
    pub fn shown_window(self, days: &[u32]) -> Window {
        let least = days.iter().map(|day| self.shown(*day)).min();
        let greatest = days.iter().map(|day| self.shown(*day)).max();
        Window {
            low: least.unwrap_or(0),
            high: greatest.unwrap_or(0),
        }
    }

    // The days that are shown as one of these.
    pub fn days_shown_in(
        self,
        alloc: Global,
        days: &[u32],
        asked: Window,
    ) -> Result<Days, AllocError> {
        days.iter()
            .copied()
            .filter(|day| asked.low <= self.shown(*day) && self.shown(*day) <= asked.high)
            .collect(alloc)
    }
}

pub fn days_of(alloc: Global, window: Window) -> Result<Days, AllocError> {
    (window.low..=window.high).collect(alloc)
}

// The set bits of a mask.
pub fn days_of_mask(alloc: Global, mask: u64) -> Result<Days, AllocError> {
    (0..64)
        .filter(|day| mask & bit_of(*day) != 0)
        .collect(alloc)
}

// The mask of all days of a window.
pub fn mask_of(window: Window) -> u64 {
    (window.low..=window.high).fold(0, |mask, day| mask | bit_of(day))
}

fn bit_of(day: u32) -> u64 {
    1u64.checked_shl(day).unwrap_or(0)
}
