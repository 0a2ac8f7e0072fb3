// The most different days of a list of windows: a matching of lots to days, in which lots in the order of their last
// days take the earliest free day of their window.
ghost use Rattle.std.specs.Prelude.{◌≡◌, ℕ, ◌-◌, ◌<◌, ◌≤◌, Decides, length, drop};
ghost use Rattle.store.specs.Sound.{Sound};
ghost use Rattle.store.specs.Windows.{window_at};
ghost use Rattle.extremes.specs.Flags.{Set, Unset};
ghost use Rattle.extremes.specs.Orders.{ByLastDay};
ghost use Rattle.extremes.specs.Shown.{MostOf};
ghost use Rattle.extremes.specs.Turns.{EndBefore, Turn};

use crate::order::{Slot, by_last_day};
use nvalue::season::{ROOM, Season};
use store::limits::DAYS;
use store::window::Window;

// The greatest count, and how many runs show it.
#[derive(Clone, Copy, PartialEq, Eq, Debug)]
pub struct Most {
    pub count: usize,
    pub runs: usize,
}

// A room for this many days is enough for most seasons, and is cleared sooner than one for all days.
pub const SHORT: usize = 512;

// Writes a choice with the most different days, and the runs that show that no choice has more. Past those runs, up to
// as many as there are lots, the room is scratch.
// That `days` is as long as the season is a clause: the two come from different hands, so no one type can hold both.
pub fn most_of(season: Season, days: &mut [u32], runs: &mut [Window]) -> Most
    requires day_each { length days.old ≡ length season.windows.now }
    requires run_room { length season.windows.now ≤ length runs.old }
    ensures shown { MostOf season.entry.windows.now days.new runs.new result }
    ensures room { result.runs ≤ length season.entry.windows.now }
    ensures rest { drop (length season.entry.windows.now) runs.new ≡ drop (length season.entry.windows.now)
        runs.old }
{
    let mut room = [(0, 0); ROOM];
    place_lots(season, by_last_day(season, &mut room), days, runs)
}

// Gives each lot its day, in the given order. The flags of days that are taken are as many as the last window needs.
pub fn place_lots(season: Season, order: &[Slot], days: &mut [u32], runs: &mut [Window]) -> Most
    requires day_each { length days.old ≡ length season.windows.now }
    requires run_room { length season.windows.now ≤ length runs.old }
    requires order { ByLastDay season.windows.now order.now }
    ensures shown { MostOf season.entry.windows.now days.new runs.new result }
    ensures room { result.runs ≤ length season.entry.windows.now }
    ensures rest { drop (length season.entry.windows.now) runs.new ≡ drop (length season.entry.windows.now)
        runs.old }
{
    if end_before(season.windows, SHORT) {
        place_in(season, order, &mut [false; SHORT], days, runs)
    } else {
        place_in(season, order, &mut [false; DAYS], days, runs)
    }
}

// Do all windows end before a day?
pub fn end_before(windows: &[Window], day: usize) -> bool
    ensures { Decides result (EndBefore day windows.now) }
{
    windows.iter().all(|window| (window.high as usize) < day)
}

// The same with a flag for each day, none of which is taken.
fn place_in(
    season: Season,
    order: &[Slot],
    taken: &mut [bool],
    days: &mut [u32],
    runs: &mut [Window],
) -> Most
    requires day_each { length days.old ≡ length season.windows.now }
    requires run_room { length season.windows.now ≤ length runs.old }
    requires order { ByLastDay season.windows.now order.now }
    requires free { (d : ℕ) → Unset taken.old d }
    requires ends { EndBefore (length taken.old) season.windows.now }
    ensures shown { MostOf season.entry.windows.now days.new runs.new result }
    ensures room { result.runs ≤ length season.entry.windows.now }
    ensures rest { drop (length season.entry.windows.now) runs.new ≡ drop (length season.entry.windows.now)
        runs.old }
{
    let mut most = Most { count: 0, runs: 0 };
    for (_, place) in order {
        days[*place as usize] = place_lot(season.windows[*place as usize], taken, runs, &mut most);
    }
    most
}

// One lot's turn, and the day that it gets: the first free one of its window, or where none is free the window's
// first. Then the run of taken days that ends with the window shows that the lot is left over.
// The window is sound by a clause: a type for a single one would be converted at each read of a slice.
fn place_lot(window: Window, taken: &mut [bool], runs: &mut [Window], most: &mut Most) -> u32
    requires sound { Sound window }
    requires ends { window.high < length taken.old }
    requires room { most.old.runs < length runs.old }
    requires few { most.old.count ≤ 257 }
    ensures { Turn window result taken.old runs.old most.old taken.new runs.new most.new }
{
    let day = first_free(taken, window);
    if day <= window.high {
        taken[day as usize] = true;
        most.count += 1;
        return day;
    }
    let start = block_start(taken, window.high);
    let kept = runs_before(runs, most.runs, start);
    runs[kept] = Window {
        low: start,
        high: window.high,
    };
    most.runs = kept + 1;
    window.low
}

// The first free day of a window, or the day after its last.
fn first_free(taken: &[bool], window: Window) -> u32
    requires sound { Sound window }
    requires ends { window.high < length taken.now }
    ensures from { window.low ≤ result }
    ensures before { (d : ℕ) → window.low ≤ d → d < result → Set taken.now d }
    ensures free { result ≤ window.high → Unset taken.now result }
{
    let days = &taken[window.low as usize..=window.high as usize];
    match days.iter().position(|is_taken| !*is_taken) {
        Some(later) => window.low + later as u32,
        None => window.high + 1,
    }
}

// The first of the unbroken taken days before a day, or the day itself where the one before it is free.
fn block_start(taken: &[bool], day: u32) -> u32
    requires { day < length taken.now }
    ensures upto { result ≤ day }
    ensures full { (d : ℕ) → result ≤ d → d < day → Set taken.now d }
    ensures edge { 0 < result → Unset taken.now (result - 1) }
{
    let before = &taken[..day as usize];
    match before.iter().rposition(|is_taken| !*is_taken) {
        Some(free) => free as u32 + 1,
        None => 0,
    }
}

// How many of the first `top` runs are left where those at the end that begin at `start` or later are dropped.
fn runs_before(runs: &[Window], top: usize, start: u32) -> usize
    requires { top ≤ length runs.now }
    ensures fewer { result ≤ top }
    ensures gone { (k : ℕ) → result ≤ k → k < top → start ≤ (window_at runs.now k).low }
    ensures left { 0 < result → (window_at runs.now (result - 1)).low < start }
{
    match runs[..top].iter().rposition(|run| run.low < start) {
        Some(last) => last + 1,
        None => 0,
    }
}
