// What the first days of all windows do to the rules, and the first lot that still has a choice.
ghost use Rattle.std.specs.Prelude.{◌≡◌, ◌+◌, ◌≤◌, length, Decides, MatchOption};
ghost use Rattle.std.specs.List.{AllByRecursion};
ghost use Rattle.rules.specs.Plans.{Keeps, lows};
ghost use Rattle.propagation.specs.Problems.{sheet_in};
ghost use Rattle.search.specs.Search.{FirstOpen, Single};

use nvalue::count::different_days;
use propagation::problem::Problem;
use rules::row::Row;
use store::limits::LOTS;
use store::window::Window;

// Do the first days of all windows keep every rule?
pub fn lows_keep(problem: &Problem) -> bool
    ensures { Decides result (AllByRecursion (Keeps (lows (sheet_in problem.now).windows)) (sheet_in
        problem.now).rules) }
{
    let windows = problem.windows();
    let mut room = [0; LOTS];
    let days = &mut room[..windows.len()];
    write_lows(windows, days);
    days_keep(problem, days)
}

// Writes the first day of each window. By number: of days written through a zipped iterator only their count would be
// known afterwards. That `days` is as long as `windows` is a clause: the two come from different hands.
pub fn write_lows(windows: &[Window], days: &mut [u32])
    requires { length days.old ≡ length windows.now }
    ensures { days.new ≡ lows windows.now }
{
    for (lot, window) in windows.iter().enumerate() {
        days[lot] = window.low;
    }
}

// Do the days keep every rule? A loop: the closure of an `all` would have to take every row, and `keeps` takes only
// those of the sheet.
fn days_keep(problem: &Problem, days: &[u32]) -> bool
    requires { length days.now ≡ length (sheet_in problem.now).windows }
    ensures { Decides result (AllByRecursion (Keeps days.now) (sheet_in problem.now).rules) }
{
    for row in problem.rows() {
        if !keeps(days, *row) {
            return false;
        }
    }
    true
}

// Do the days keep this rule?
fn keeps(days: &[u32], row: Row) -> bool
    requires { row.stretch.first + row.stretch.length ≤ length days.now }
    ensures { Decides result (Keeps days.now row) }
{
    let first = row.stretch.first;
    let count = different_days(&days[first..first + row.stretch.length]);
    row.floor as usize <= count && count <= row.ceiling as usize
}

// The first lot whose window has more than one day.
pub fn first_open(windows: &[Window]) -> Option<usize>
    ensures { MatchOption result (AllByRecursion Single windows.now) (FirstOpen windows.now) }
{
    windows.iter().position(|window| window.low < window.high)
}
