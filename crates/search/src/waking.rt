// Which propagators are to run once a lot's window has changed: those of the rules over the lot.
ghost use Rattle.std.specs.Prelude.{◌≡◌, ℕ, ◌<◌, false, length};
ghost use Rattle.nvalue.specs.Stretches.{Over};
ghost use Rattle.rules.specs.Sheets.{rule_at};
ghost use Rattle.propagation.specs.Queues.{waits};
ghost use Rattle.propagation.specs.Problems.{sheet_in};

use propagation::problem::Problem;
use propagation::queue::Queue;

// The rules whose stretch has the lot, and no others.
pub fn rules_over(problem: &Problem, lot: usize) -> Queue
    ensures { (k : ℕ) → k < length (sheet_in problem.now).rules → waits result k ≡ false → Over
        (rule_at (sheet_in problem.now).rules k).stretch lot → ⊥ }
{
    let mut queue = Queue::none();
    for (number, row) in problem.rows().iter().enumerate() {
        if row.stretch.has(lot) {
            queue.push(number);
        }
    }
    queue
}
