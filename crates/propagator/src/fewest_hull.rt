// The smallest windows that hold every choice with the fewest different days.
ghost use Rattle.std.specs.Prelude.{◌≡◌, ℕ, ◌<◌, ◌≤◌, map, length, take, slice_index};
ghost use Rattle.std.specs.List.{AllByRecursion};
ghost use Rattle.extremes.specs.Orders.{ByLastDay};
ghost use Rattle.extremes.specs.Mirror.{mirrored};
ghost use Rattle.extremes.specs.Stabbing.{lasts, StabbingPoints};
ghost use Rattle.propagator.specs.FirstSupport.{Ascending, SomeFrom, FirstSupport};
ghost use Rattle.extremes.specs.Shown.{HasFewest, IsLeast};
ghost use Rattle.propagator.specs.Tight.{Hull};

use extremes::mirror::{flip_day, mirror_season};
use extremes::order::{Slot, by_last_day};
use extremes::stabbing::serve;
use nvalue::season::{ROOM, Season};
use store::window::Window;

// The stabbing points from the left are given; those from the right are found by the mirror image. Each pair of them
// bounds the days that can stand for one of the fewest.
// That `hull` is as long as the season is a clause: the two come from different hands, so no one type can hold both.
pub fn fewest_hull(season: Season, points: &[u32], hull: &mut [Window])
    requires each { length hull.old ≡ length season.windows.now }
    requires points { StabbingPoints season.windows.now points.now }
    ensures { Hull season.entry.windows.now (HasFewest season.entry.windows.now) hull.new }
{
    let mut room = [Window::default(); ROOM];
    let image = mirror_season(season, &mut room);
    let mut slots = [(0, 0); ROOM];
    let mut image_points = [0; ROOM];
    let count = points_of(image, by_last_day(image, &mut slots), &mut image_points);
    write_supports(season, points, &image_points[0..count], hull);
}

// Writes the stabbing points of a choice with the fewest different days, in ascending order.
pub fn points_of(season: Season, order: &[Slot], points: &mut [u32]) -> usize
    requires room { length season.windows.now ≤ length points.old }
    requires order { ByLastDay season.windows.now order.now }
    ensures points { StabbingPoints season.entry.windows.now (take result points.new) }
    ensures few { result ≤ length points.new }
    ensures least { IsLeast season.entry.windows.now result }
{
    let mut days = [0; ROOM];
    let mut lots = [0; ROOM];
    let count = serve(season, order, &mut days[0..season.windows.len()], &mut lots);
    last_days(season.windows, &lots[0..count], &mut points[0..count]);
    count
}

// Writes the last day of each of some lots.
// That `days` is as long as `lots` is a clause: the two come from different hands, so no one type can hold both.
fn last_days(windows: &[Window], lots: &[u32], days: &mut [u32])
    requires there { AllByRecursion (λ lot. lot < length windows.now) lots.now }
    requires each { length days.old ≡ length lots.now }
    ensures { days.new ≡ lasts windows.now lots.now }
{
    for (i, lot) in lots.iter().enumerate() {
        days[i] = windows[*lot as usize].high;
    }
}

// Cuts each window to its first and its last used day; the last one is the first one of the mirror image.
fn write_supports(season: Season, points: &[u32], image_points: &[u32], hull: &mut [Window])
    requires each { length hull.old ≡ length season.windows.now }
    requires points { StabbingPoints season.windows.now points.now }
    requires image { StabbingPoints (map mirrored season.windows.now) image_points.now }
    ensures { Hull season.entry.windows.now (HasFewest season.entry.windows.now) hull.new }
{
    for (i, window) in season.windows.iter().enumerate() {
        let last = first_support(flip_day(window.high), image_points, points);
        hull[i] = Window {
            low: first_support(window.low, points, image_points),
            high: flip_day(last),
        };
    }
}

// The first day, from `low` on, that a choice with the fewest different days uses.
fn first_support(low: u32, points: &[u32], image_points: &[u32]) -> u32
    requires ascending { Ascending points.now }
    requires reached { SomeFrom low points.now }
    requires each { length image_points.now ≡ length points.now }
    ensures { FirstSupport low points.now image_points.now result }
{
    let k = first_from(low, points);
    low.max(flip_day(image_points[points.len() - 1 - k]))
}

// The first point at or past a day.
fn first_from(low: u32, points: &[u32]) -> usize
    requires ascending { Ascending points.now }
    requires reached { SomeFrom low points.now }
    ensures there { result < length points.now }
    ensures before { (j : ℕ) → j < result → slice_index points.now j < low }
    ensures reached { low ≤ slice_index points.now result }
{
    points.partition_point(|point| *point < low)
}
