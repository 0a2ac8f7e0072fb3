// Which lots the best choices can spare.
ghost use Rattle.std.specs.Prelude.{◌≡◌, ℕ, ◌+◌, ◌<◌, true, length, slice_set};
ghost use Rattle.store.specs.Sound.{Sound};
ghost use Rattle.extremes.specs.Turns.{EndBefore};
ghost use Rattle.propagator.specs.Supports.{Best};
ghost use Rattle.propagator.specs.Matching.{Mate, Mated, Spared, Spread, Waits};

use extremes::flags::first_set;
use nvalue::season::{ROOM, Season};
use store::window::Window;

// Marks the spare lots: at first they are those that share their day; where a lot is spare it may take the day of any
// other, which is spare then.
pub fn spread(season: Season, days: &[u32], mates: &[Option<u16>], spare: &mut [bool])
    requires best { Best season.windows.now days.now }
    requires mated { Mated (length days.now) days.now mates.now spare.old }
    requires each { length spare.old ≡ length season.windows.now }
    requires ends { EndBefore (length mates.now) season.windows.now }
    ensures { Spared season.entry.windows.now days.now spare.new }
{
    let mut room = [false; ROOM];
    let pending = &mut room[..season.windows.len()];
    pending.copy_from_slice(spare);
    while let Some(lot) = first_set(pending) {
        pending[lot] = false;
        spread_from(season.windows[lot], mates, spare, pending);
    }
}

// The lots that have a day of the window become spare, and pending where they were not.
fn spread_from(window: Window, mates: &[Option<u16>], spare: &mut [bool], pending: &mut [bool])
    requires sound { Sound window }
    requires ends { window.high < length mates.now }
    requires known { (day k : ℕ) → Mate mates.now day k → k < length spare.old }
    requires each { length pending.old ≡ length spare.old }
    ensures { Spread window.low (window.high + 1) mates.now spare.old pending.old spare.new pending.new }
{
    for mate in &mates[window.low as usize..=window.high as usize] {
        if let Some(lot) = mate {
            mark_spare(*lot as usize, spare, pending);
        }
    }
}

// One lot becomes spare, and pending where it was not.
fn mark_spare(lot: usize, spare: &mut [bool], pending: &mut [bool])
    requires there { lot < length spare.old }
    requires each { length pending.old ≡ length spare.old }
    ensures spare { spare.new ≡ slice_set spare.old lot true }
    ensures pending { Waits spare.old lot pending.old pending.new }
{
    if !spare[lot] {
        spare[lot] = true;
        pending[lot] = true;
    }
}
