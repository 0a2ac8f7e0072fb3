// The smallest windows that hold every choice with the most different days.
ghost use Rattle.std.specs.Prelude.{◌≡◌, ℕ, ◌<◌, length};
ghost use Rattle.extremes.specs.Shown.{HasMost};
ghost use Rattle.extremes.specs.Flags.{Unset};
ghost use Rattle.extremes.specs.Turns.{EndBefore};
ghost use Rattle.propagator.specs.Supports.{Best, NoneAfter, NoneBefore, BestDay, BoundSupports};
ghost use Rattle.propagator.specs.Matching.{Unmatched, IsMatching};
ghost use Rattle.propagator.specs.Tight.{Hull};

use crate::mates::note_mates;
use crate::reach::Reach;
use crate::shut::{Matching, shut_out};
use crate::spare::spread;
use extremes::matching::{SHORT, end_before};
use nvalue::season::{ROOM, Season};
use store::limits::DAYS;
use store::window::Window;

// Writes for each lot its bound supports: the first and the last day that a choice with the most different days
// gives to it; `days` is such a choice.
// That `hull` is as long as the season is a clause: the two come from different hands, so no one type can hold
// both.
pub fn most_hull(season: Season, days: &[u32], hull: &mut [Window])
    requires each { length hull.old ≡ length season.windows.now }
    requires best { Best season.windows.now days.now }
    ensures { Hull season.entry.windows.now (HasMost season.entry.windows.now) hull.new }
{
    if end_before(season.windows, SHORT) {
        hull_in(season, days, &mut [None; SHORT], hull);
    } else {
        hull_in_long(season, days, hull);
    }
}

// The same with room for all days. Out of line: it would else stand on the stack of every rule that is made firm, and
// few need it.
#[inline(never)]
fn hull_in_long(season: Season, days: &[u32], hull: &mut [Window])
    requires each { length hull.old ≡ length season.windows.now }
    requires best { Best season.windows.now days.now }
    ensures { Hull season.entry.windows.now (HasMost season.entry.windows.now) hull.new }
{
    hull_in(season, days, &mut [None; DAYS], hull);
}

// The same with room for a mate of each day, and none in it.
fn hull_in(season: Season, days: &[u32], mates: &mut [Option<u16>], hull: &mut [Window])
    requires each { length hull.old ≡ length season.windows.now }
    requires best { Best season.windows.now days.now }
    requires free { (d : ℕ) → Unmatched mates.old d }
    requires ends { EndBefore (length mates.old) season.windows.now }
    ensures { Hull season.entry.windows.now (HasMost season.entry.windows.now) hull.new }
{
    let mut flags = [false; ROOM];
    let spare = &mut flags[..season.windows.len()];
    note_mates(days, mates, spare);
    spread(season, days, mates, spare);
    let matching = Matching {
        season,
        days,
        mates,
        spare,
    };
    for (lot, used) in hull.iter_mut().enumerate() {
        *used = bound_supports(matching, lot);
    }
}

// The first and the last day that best choices give to a lot.
// That the matching is that of a best choice, and that there is such a lot, are clauses here and in what follows.
fn bound_supports(matching: Matching, lot: usize) -> Window
    requires matching { IsMatching matching }
    requires there { lot < length matching.season.windows.now }
    ensures { BoundSupports matching.entry.season.windows.now lot result }
{
    if matching.spare[lot] {
        return matching.season.windows[lot];
    }
    Window {
        low: first_day(matching, lot),
        high: last_day(matching, lot),
    }
}

// The first day that a best choice gives to a lot which is not spare: past each block that shuts it out. What is
// seen is kept from block to block, so that no day is seen twice. A `while`, since each turn goes past a whole
// block.
fn first_day(matching: Matching, lot: usize) -> u32
    requires matching { IsMatching matching }
    requires there { lot < length matching.season.windows.now }
    requires bound { Unset matching.spare.now lot }
    ensures reached { BestDay matching.entry.season.windows.now lot result }
    ensures first { NoneBefore matching.entry.season.windows.now lot result }
{
    let mut day = matching.season.windows[lot].low;
    let mut reach = Reach::at(day);
    while day < matching.days[lot] {
        if !shut_out(matching, lot, day, &mut reach) {
            return day;
        }
        day = reach.high + 1;
        reach.widen(Window {
            low: day,
            high: day,
        });
    }
    day
}

// The last one, from the other side.
fn last_day(matching: Matching, lot: usize) -> u32
    requires matching { IsMatching matching }
    requires there { lot < length matching.season.windows.now }
    requires bound { Unset matching.spare.now lot }
    ensures reached { BestDay matching.entry.season.windows.now lot result }
    ensures last { NoneAfter matching.entry.season.windows.now lot result }
{
    let mut day = matching.season.windows[lot].high;
    let mut reach = Reach::at(day);
    while matching.days[lot] < day {
        if !shut_out(matching, lot, day, &mut reach) {
            return day;
        }
        day = reach.low - 1;
        reach.widen(Window {
            low: day,
            high: day,
        });
    }
    day
}
