// The next day to try for a lot whose first day has failed.
ghost use Rattle.std.specs.Prelude.{◌<◌, length};
ghost use Rattle.propagation.specs.Problems.{sheet_in};
ghost use Rattle.search.specs.Search.{NextDay};

use propagation::problem::Problem;

// The first day at which some window begins, or after which some window ends. The days before it are all alike: in a
// plan they can stand for one another.
pub fn next_day(problem: &Problem, lot: usize) -> u32
    requires { lot < length (sheet_in problem.now).windows }
    ensures { NextDay (sheet_in problem.now).windows lot result }
{
    let windows = problem.windows();
    let day = windows[lot].low;
    let mut next = windows[lot].high + 1;
    for w in windows {
        let border = if day < w.low { w.low } else { w.high + 1 };
        if day < border && border < next {
            next = border;
        }
    }
    next
}
