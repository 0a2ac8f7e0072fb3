// The tightest windows of one rule: bound consistency of a single nvalue constraint.
ghost use Rattle.std.specs.Prelude.{◌≡◌, ◌≤◌, length, None};
ghost use Rattle.extremes.specs.Orders.{ByLastDay};
ghost use Rattle.extremes.specs.Stabbing.{StabbingPoints};
ghost use Rattle.propagator.specs.Supports.{Best};
ghost use Rattle.nvalue.specs.Nvalue.{Counts};
ghost use Rattle.extremes.specs.Shown.{IsGreatest, IsLeast};
ghost use Rattle.propagator.specs.Tight.{Hull, Tightens, TightensTo};

use crate::copy::copy;
use crate::fewest_hull::{fewest_hull, points_of};
use crate::most_hull::most_hull;
use extremes::matching::place_lots;
use extremes::order::{Slot, by_last_day};
use nvalue::count_window::CountWindow;
use nvalue::season::{ROOM, Season};
use store::window::Window;

// The tightest windows of a rule and its tightest count window, in room that was lent for them.
#[derive(Clone, Copy)]
pub struct Tight<'a> {
    pub season: Season<'a>,
    pub count: CountWindow,
}

// The smallest windows that hold every choice whose count the rule allows, and the smallest count window for those
// choices; none where there is no such choice.
pub fn tighten<'a>(
    season: Season,
    count: CountWindow,
    room: &'a mut [Window; ROOM],
) -> Option<Tight<'a>>
    ensures { Tightens season.entry.windows.now count result }
{
    let hull = &mut room[0..season.windows.len()];
    let count = tighten_in(season, count, hull)?;
    let season = Season { windows: hull };
    Some(Tight { season, count })
}

// Writes the tightest windows, and answers the tightest count window; none where there is no such choice.
// That `hull` is as long as the season is a clause: the two come from different hands, so no one type can hold both.
fn tighten_in(season: Season, count: CountWindow, hull: &mut [Window]) -> Option<CountWindow>
    requires each { length hull.old ≡ length season.windows.now }
    ensures tightest { TightensTo season.entry.windows.now count hull.new result }
    ensures stays { result ≡ None → hull.new ≡ hull.old }
{
    let lots = season.windows.len();
    let mut slots = [(0, 0); ROOM];
    let order = by_last_day(season, &mut slots);
    let mut room = [0; ROOM];
    let fewest = points_of(season, order, &mut room);
    let points = &room[..fewest];
    let mut space = [0; ROOM];
    let days = &mut space[..lots];
    let most = best_of(season, order, days);
    let least = fewest as u32;
    let floor = count.floor();
    let ceiling = count.ceiling();
    if ceiling < least || most < floor {
        return None;
    }
    write_hull(season, points, days, most, count, hull);
    CountWindow::new(floor.max(least), ceiling.min(most))
}

// Writes the tightest windows. A day is lost only where the ceiling is the least count or the floor the greatest,
// and not every choice has that count. The stabbing points are as many as the least count; `days` are a choice with
// the greatest.
fn write_hull(
    season: Season,
    points: &[u32],
    days: &[u32],
    most: u32,
    count: CountWindow,
    hull: &mut [Window],
)
    requires each { length hull.old ≡ length season.windows.now }
    requires points { StabbingPoints season.windows.now points.now }
    requires least { IsLeast season.windows.now (length points.now) }
    requires best { Best season.windows.now days.now }
    requires most { IsGreatest season.windows.now most }
    requires reached { length points.now ≤ count.ceiling }
    requires within { count.floor ≤ most }
    ensures { Hull season.entry.windows.now (Counts count.floor count.ceiling) hull.new }
{
    let least = points.len() as u32;
    if least == most {
        copy(season.windows, hull);
    } else if count.ceiling() == least {
        fewest_hull(season, points, hull);
    } else if count.floor() == most {
        most_hull(season, days, hull);
    } else {
        copy(season.windows, hull);
    }
}

// Writes a choice with the most different days, and answers how many it has.
fn best_of(season: Season, order: &[Slot], days: &mut [u32]) -> u32
    requires each { length days.old ≡ length season.windows.now }
    requires order { ByLastDay season.windows.now order.now }
    ensures best { Best season.entry.windows.now days.new }
    ensures most { IsGreatest season.entry.windows.now result }
{
    let mut runs = [Window::default(); ROOM];
    place_lots(season, order, days, &mut runs).count as u32
}
