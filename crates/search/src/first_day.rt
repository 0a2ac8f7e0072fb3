// The first day of a lot: fixing the lot at it, and going past it once it has failed.
ghost use Rattle.std.specs.Prelude.{◌≡◌, ◌<◌, ◌≤◌, length, MatchResult};
ghost use Rattle.store.specs.Windows.{window_at};
ghost use Rattle.rules.specs.Firm.{Firm};
ghost use Rattle.rules.specs.Plans.{NoPlan};
ghost use Rattle.propagation.specs.Problems.{lots_in, sheet_in};
ghost use Rattle.search.specs.Search.{Raised, fixed, from_day};

use crate::fault::Infeasible;
use crate::next_day::next_day;
use crate::waking::rules_over;
use propagation::problem::Problem;
use propagation::propagate::propagate;
use store::window::Window;

// Fixes a lot at its first day.
pub(crate) fn fix(problem: &mut Problem, lot: usize)
    requires there { lot < length (sheet_in problem.old).windows }
    ensures sheet { sheet_in problem.new ≡ fixed lot (sheet_in problem.old) }
    ensures lots { lots_in problem.new ≡ lots_in problem.old }
{
    let day = problem.windows()[lot].low;
    problem.put(
        lot,
        Window {
            low: day,
            high: day,
        },
    );
}

// Goes past the first day of a lot, which has failed, and propagates.
pub(crate) fn go_on(problem: &mut Problem, lot: usize) -> Result<(), Infeasible>
    requires firm { Firm (sheet_in problem.old) }
    requires there { lot < length (sheet_in problem.old).windows }
    requires failed { NoPlan (fixed lot (sheet_in problem.old)) }
    ensures raised { MatchResult result (λ _. Raised (sheet_in problem.old) (sheet_in problem.new))
        (λ _. NoPlan (sheet_in problem.old)) }
    ensures lots { lots_in problem.new ≡ lots_in problem.old }
{
    let day = next_day(problem, lot);
    if day > problem.windows()[lot].high {
        return Err(Infeasible);
    }
    begin(problem, lot, day);
    let queue = rules_over(problem, lot);
    propagate(problem, queue)?;
    Ok(())
}

// Gives a lot a later first day.
fn begin(problem: &mut Problem, lot: usize, day: u32)
    requires there { lot < length (sheet_in problem.old).windows }
    requires inside { day ≤ (window_at (sheet_in problem.old).windows lot).high }
    ensures sheet { sheet_in problem.new ≡ from_day lot day (sheet_in problem.old) }
    ensures lots { lots_in problem.new ≡ lots_in problem.old }
{
    let high = problem.windows()[lot].high;
    problem.put(lot, Window { low: day, high });
}
