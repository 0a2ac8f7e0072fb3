// The fixpoint over all rules: a propagator runs again where a window of its rule has moved, until all rules are firm.
ghost use Rattle.std.specs.Prelude.{◌≡◌, length};
ghost use Rattle.propagation.specs.Problems.{lots_in, sheet_in};
ghost use Rattle.propagation.specs.Queues.{RestFirm};
ghost use Rattle.propagation.specs.Runs.{Propagates};

use crate::fault::Inconsistent;
use crate::one_rule::run_propagator;
use crate::problem::Problem;
use crate::queue::Queue;

// Narrows windows and count windows to the greatest firm sheet. Where there is none, what is left means nothing.
// That the lots stay is about two moments of one value, so a clause of each call that writes it.
pub fn propagate_all(problem: &mut Problem) -> Result<(), Inconsistent>
    ensures propagates { Propagates (sheet_in problem.old) result (sheet_in problem.new) }
    ensures lots { lots_in problem.new ≡ lots_in problem.old }
{
    propagate(problem, Queue::all())
}

// The same where only the rules in the queue need a look: every other one is firm already.
pub fn propagate(problem: &mut Problem, mut queue: Queue) -> Result<(), Inconsistent>
    requires { RestFirm (sheet_in problem.old) queue }
    ensures propagates { Propagates (sheet_in problem.old) result (sheet_in problem.new) }
    ensures lots { lots_in problem.new ≡ lots_in problem.old }
{
    while let Some(number) = queue.pop(problem.rows().len()) {
        run_propagator(problem, number, &mut queue)?;
    }
    Ok(())
}
