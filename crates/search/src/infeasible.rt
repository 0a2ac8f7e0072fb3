// A look for a proof that there is no plan: in order of lots the search can go back and forth over late lots for
// long, while the trouble of an impossible sheet lies among others. Here the days of the tightest lots are tried
// first, in a copy, with a bounded number of tries. A refusal is a proof that there is no plan, and an end without
// one says nothing.
ghost use Rattle.std.specs.Prelude.{◌<◌, ◌≤◌, length, IfErr};
ghost use Rattle.rules.specs.Firm.{Firm};
ghost use Rattle.rules.specs.Plans.{NoPlan};
ghost use Rattle.propagation.specs.Problems.{sheet_in};
ghost use Rattle.search.specs.Search.{Open, fixed};

use crate::fault::Infeasible;
use crate::first_day::{fix, go_on};
use crate::lows::lows_keep;
use crate::tightest::tightest;
use crate::tries::Tries;
use crate::waking::rules_over;
use propagation::problem::Problem;
use propagation::propagate::propagate;

// Has the problem no plan? With so many tries at most. Where nothing is refused there is one, or the tries were
// used up.
pub(crate) fn prove_infeasible(problem: &Problem, tries: u32) -> Result<(), Infeasible>
    requires { Firm (sheet_in problem.now) }
    ensures { IfErr result (λ _. NoPlan (sheet_in problem.now)) }
{
    let mut copy = *problem;
    let mut budget = Tries::new(tries);
    probe(&mut copy, &mut budget)
}

// The same with what is left of the tries, in a problem that may be written.
#[cycle(probing)]
fn probe(problem: &mut Problem, budget: &mut Tries) -> Result<(), Infeasible>
    requires firm { Firm (sheet_in problem.old) }
    ensures refuted { IfErr result (λ _. NoPlan (sheet_in problem.old)) }
    ensures budget { budget.new.left ≤ budget.old.left }
{
    if lows_keep(problem) {
        return Ok(());
    }
    match tightest(problem) {
        Some(lot) => probe_days(problem, lot, budget),
        None => Err(Infeasible),
    }
}

// The same by the days of a lot that has a choice.
#[cycle(probing)]
fn probe_days(problem: &mut Problem, lot: usize, budget: &mut Tries) -> Result<(), Infeasible>
    requires firm { Firm (sheet_in problem.old) }
    requires choice { Open (sheet_in problem.old).windows lot }
    ensures refuted { IfErr result (λ _. NoPlan (sheet_in problem.old)) }
    ensures budget { budget.new.left ≤ budget.old.left }
{
    while let Err(Infeasible) = probe_first(problem, lot, budget) {
        go_on(problem, lot)?;
    }
    Ok(())
}

// Has the problem no plan with the lot at its first day? Not refused where the tries are used up.
#[cycle(probing)]
fn probe_first(problem: &Problem, lot: usize, budget: &mut Tries) -> Result<(), Infeasible>
    requires firm { Firm (sheet_in problem.now) }
    requires there { lot < length (sheet_in problem.now).windows }
    ensures refuted { IfErr result (λ _. NoPlan (fixed lot (sheet_in problem.now))) }
    ensures budget { budget.new.left ≤ budget.old.left }
    ensures spent { IfErr result (λ _. budget.new.left < budget.old.left) }
{
    if !budget.take() {
        return Ok(());
    }
    let mut trial = *problem;
    fix(&mut trial, lot);
    let queue = rules_over(&trial, lot);
    propagate(&mut trial, queue)?;
    probe(&mut trial, budget)
}
