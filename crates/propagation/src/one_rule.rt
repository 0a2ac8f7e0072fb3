// The propagator of one rule, run on a problem.
ghost use Rattle.std.specs.Prelude.{◌≡◌, ◌<◌, length};
ghost use Rattle.propagation.specs.Problems.{lots_in, sheet_in};
ghost use Rattle.propagation.specs.Runs.{Runs};

use crate::fault::Inconsistent;
use crate::moved::{same, wake};
use crate::problem::Problem;
use crate::queue::Queue;
use nvalue::season::ROOM;
use propagator::tighten::tighten;
use store::window::Window;

// Makes one rule firm: its windows and its count window become the tightest. Rules that share a window which moved
// wait then; most runs move none.
pub(crate) fn run_propagator(
    problem: &mut Problem,
    number: usize,
    queue: &mut Queue,
) -> Result<(), Inconsistent>
    requires there { number < length (sheet_in problem.old).rules }
    ensures runs { Runs number problem.old queue.old result problem.new queue.new }
    ensures lots { lots_in problem.new ≡ lots_in problem.old }
{
    let stretch = problem.rows()[number].stretch;
    let mut room = [Window::default(); ROOM];
    let count = problem.count(number);
    let Some(tight) = tighten(problem.season(stretch), count, &mut room) else {
        return Err(Inconsistent);
    };
    problem.recount(number, tight.count);
    let windows = tight.season.windows;
    if !same(windows, problem.season(stretch).windows) {
        wake(problem, number, stretch.first, windows, queue);
        problem.write(stretch.first, tight.season);
    }
    Ok(())
}
