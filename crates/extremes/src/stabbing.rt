// The fewest different days of a list of windows: stabbing points of an interval graph. Lots in the order of their
// last days take the last point, or open one at their own last day.
ghost use Rattle.std.specs.Prelude.{◌≡◌, ◌≤◌, length, take, drop};
ghost use Rattle.extremes.specs.Orders.{ByLastDay};
ghost use Rattle.extremes.specs.Shown.{FewestOf};
ghost use Rattle.extremes.specs.Stabbing.{Stabs};

use crate::order::{Slot, by_last_day};
use nvalue::season::{ROOM, Season};

// Writes a choice with the fewest different days, and as many lots whose windows share no day pairwise.
// That `days` is as long as the season is a clause: the two come from different hands, so no one type can hold both.
pub fn fewest_of(season: Season, days: &mut [u32], lots: &mut [u32]) -> usize
    requires day_each { length days.old ≡ length season.windows.now }
    requires lot_room { length season.windows.now ≤ length lots.old }
    ensures shown { FewestOf season.entry.windows.now days.new lots.new result }
    ensures room { result ≤ length season.entry.windows.now }
    ensures rest { drop result lots.new ≡ drop result lots.old }
    ensures points { Stabs season.entry.windows.now (take result lots.new) }
{
    let mut room = [(0, 0); ROOM];
    serve(season, by_last_day(season, &mut room), days, lots)
}

// Serves the lots in order: one whose window begins past the last point opens a new one at its last day.
pub fn serve(season: Season, order: &[Slot], days: &mut [u32], lots: &mut [u32]) -> usize
    requires day_each { length days.old ≡ length season.windows.now }
    requires lot_room { length season.windows.now ≤ length lots.old }
    requires order { ByLastDay season.windows.now order.now }
    ensures shown { FewestOf season.entry.windows.now days.new lots.new result }
    ensures room { result ≤ length season.entry.windows.now }
    ensures rest { drop result lots.new ≡ drop result lots.old }
    ensures points { Stabs season.entry.windows.now (take result lots.new) }
{
    let mut count = 0;
    let mut point = 0;
    for (high, place) in order {
        if count == 0 || season.windows[*place as usize].low > point {
            lots[count] = *place;
            count += 1;
            point = *high;
        }
        days[*place as usize] = point;
    }
    count
}
