// The search for the earliest plan: propagate, look whether the first days will do, and else branch on the days of the
// first lot that has a choice, the earliest first. After many failures it also looks for a proof that there is no plan
// (`infeasible`). When it does is speed and no promise: what is found or refused is the same.
ghost use Rattle.std.specs.Prelude.{◌≡◌, ◌<◌, length, IfErr};
ghost use Rattle.rules.specs.Firm.{Firm};
ghost use Rattle.rules.specs.Plans.{NoPlan};
ghost use Rattle.propagation.specs.Problems.{sheet_in};
ghost use Rattle.propagation.specs.Queues.{RestFirm};
ghost use Rattle.search.specs.Search.{FirstOpen, fixed};
ghost use Rattle.search.specs.Solves.{Solves};

use crate::fault::Infeasible;
use crate::first_day::{fix, go_on};
use crate::infeasible::prove_infeasible;
use crate::limit::FailLimit;
use crate::lows::{first_open, lows_keep};
use crate::waking::rules_over;
use propagation::problem::Problem;
use propagation::propagate::propagate;
use propagation::queue::Queue;

// Finds the earliest plan inside the windows: then it is the first day of each window that is left. The rules that do
// not wait in the queue are firm already.
#[cycle(solving)]
fn solve(problem: &mut Problem, queue: Queue, limit: &mut FailLimit) -> Result<(), Infeasible>
    requires rest { RestFirm (sheet_in problem.old) queue }
    ensures { Solves (sheet_in problem.old) result (sheet_in problem.new) }
{
    propagate(problem, queue)?;
    solve_firm(problem, limit)
}

// The same where the sheet is firm. That it is (`Firm`) names choices, so it is no proposition that a ghost field
// could hold.
#[cycle(solving)]
pub(crate) fn solve_firm(problem: &mut Problem, limit: &mut FailLimit) -> Result<(), Infeasible>
    requires firm { Firm (sheet_in problem.old) }
    ensures { Solves (sheet_in problem.old) result (sheet_in problem.new) }
{
    if lows_keep(problem) {
        return Ok(());
    }
    match first_open(problem.windows()) {
        Some(lot) => try_days(problem, lot, limit),
        None => Err(Infeasible),
    }
}

// The same where a lot has a choice and none before it has.
#[cycle(solving)]
fn try_days(problem: &mut Problem, lot: usize, limit: &mut FailLimit) -> Result<(), Infeasible>
    requires firm { Firm (sheet_in problem.old) }
    requires first { FirstOpen (sheet_in problem.old).windows lot }
    ensures { Solves (sheet_in problem.old) result (sheet_in problem.new) }
{
    while let Err(Infeasible) = try_first(problem, lot, limit) {
        go_on(problem, lot)?;
        count_failure(problem, limit)?;
    }
    Ok(())
}

// Fixes the lot at its first day: then the first days of all windows are the earliest plan with that day. Where
// there is none, the problem stays. That there is such a lot is about an argument, so a clause here and in what
// follows.
#[cycle(solving)]
fn try_first(problem: &mut Problem, lot: usize, limit: &mut FailLimit) -> Result<(), Infeasible>
    requires firm { Firm (sheet_in problem.old) }
    requires there { lot < length (sheet_in problem.old).windows }
    ensures found { Solves (fixed lot (sheet_in problem.old)) result (sheet_in problem.new) }
    ensures stay { IfErr result (λ _. problem.new ≡ problem.old) }
{
    let mut trial = *problem;
    fix(&mut trial, lot);
    let queue = rules_over(&trial, lot);
    solve(&mut trial, queue, limit)?;
    *problem = trial;
    Ok(())
}

// One more day has failed. Once the limit is reached, what is left may have no plan at all.
fn count_failure(problem: &Problem, limit: &mut FailLimit) -> Result<(), Infeasible>
    requires { Firm (sheet_in problem.now) }
    ensures { IfErr result (λ _. NoPlan (sheet_in problem.now)) }
{
    if limit.failures.take() {
        return Ok(());
    }
    prove_infeasible(problem, limit.tries)?;
    limit.renew();
    Ok(())
}
