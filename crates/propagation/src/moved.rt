// Which rules have a window that moves.
ghost use Rattle.std.specs.Prelude.{◌≡◌, ◌+◌, ◌≤◌, true, length, Decides};
ghost use Rattle.propagation.specs.Changes.{written};
ghost use Rattle.propagation.specs.Problems.{sheet_in};
ghost use Rattle.propagation.specs.Runs.{SameOn, WakesFor};

use crate::problem::Problem;
use crate::queue::Queue;
use nvalue::stretch::Stretch;
use store::window::Window;

// Queues the rules, but for the one with this number, of which a window moves where lots from `first` on get these.
pub(crate) fn wake(
    problem: &Problem,
    number: usize,
    first: usize,
    windows: &[Window],
    queue: &mut Queue,
)
    requires { first + length windows.now ≤ length (sheet_in problem.now).windows }
    ensures { WakesFor number problem.now first windows.now queue.old queue.new }
{
    for (q, row) in problem.rows().iter().enumerate() {
        if q != number && !stays(problem.windows(), first, windows, row.stretch) {
            queue.push(q);
        }
    }
}

// Does each window of the stretch stay? Only lots that both have are compared. A `false` too many costs only time.
fn stays(windows: &[Window], first: usize, new: &[Window], stretch: Stretch) -> bool
    requires within { first + length new.now ≤ length windows.now }
    requires there { stretch.first + stretch.length ≤ length windows.now }
    ensures { result ≡ true → SameOn stretch windows.now (written first new.now windows.now) }
{
    let from = first.max(stretch.first);
    let to = (first + new.len()).min(stretch.first + stretch.length);
    to <= from || same(&windows[from..to], &new[from - first..to - first])
}

// Are these the same windows?
pub(crate) fn same(windows: &[Window], others: &[Window]) -> bool
    ensures { Decides result (windows.now ≡ others.now) }
{
    windows == others
}
