// Which lot to try first where a problem is thought to have no plan.
ghost use Rattle.std.specs.Prelude.{◌<◌, length, MatchOption};
ghost use Rattle.std.specs.List.{AllByRecursion};
ghost use Rattle.propagation.specs.Problems.{sheet_in};
ghost use Rattle.search.specs.Search.{Open, Single};

use crate::lows::first_open;
use propagation::problem::Problem;
use store::window::Window;

// Of the lots with a choice one with the smallest width for each rule over it, so that few tries tell most (in the
// field, smallest domain over degree); those under no rule come last. Which of them it is, is speed and no promise.
pub(crate) fn tightest(problem: &Problem) -> Option<usize>
    ensures { MatchOption result (AllByRecursion Single (sheet_in problem.now).windows)
        (Open (sheet_in problem.now).windows) }
{
    let windows = problem.windows();
    let mut best = first_open(windows)?;
    for (lot, window) in windows.iter().enumerate() {
        if window.low < window.high && is_tighter(problem, lot, best) {
            best = lot;
        }
    }
    Some(best)
}

// Has a lot a smaller width for each rule over it than another? Multiplied out, as there may be no rule.
fn is_tighter(problem: &Problem, lot: usize, other: usize) -> bool
    requires lot { lot < length (sheet_in problem.now).windows }
    requires other { other < length (sheet_in problem.now).windows }
{
    let windows = problem.windows();
    let rules = degree(problem, lot);
    let other_rules = degree(problem, other);
    width(windows[lot]).saturating_mul(other_rules) < width(windows[other]).saturating_mul(rules)
}

// The days of a window beyond its first.
fn width(window: Window) -> u32 {
    window.high.saturating_sub(window.low)
}

// How many rules are over a lot.
fn degree(problem: &Problem, lot: usize) -> u32 {
    let mut many: u32 = 0;
    for row in problem.rows() {
        if row.stretch.has(lot) {
            many = many.saturating_add(1);
        }
    }
    many
}
