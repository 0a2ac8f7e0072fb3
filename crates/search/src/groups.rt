// The earliest plan of a problem, group by group: lots that no chain of overlapping stretches joins cannot affect each
// other.
ghost use Rattle.std.specs.Prelude.{◌≡◌, ◌+◌, ◌-◌, ◌<◌, ◌≤◌, length, drop, Decides};
ghost use Rattle.nvalue.specs.Choices.{part};
ghost use Rattle.rules.specs.Firm.{Firm};
ghost use Rattle.rules.specs.Parts.{Border, part_of};
ghost use Rattle.propagation.specs.Problems.{sheet_in};
ghost use Rattle.search.specs.Solves.{Finds};

use crate::branch::solve_firm;
use crate::fault::Infeasible;
use crate::limit::FailLimit;
use crate::lows::write_lows;
use nvalue::stretch::Stretch;
use propagation::problem::Problem;
use propagation::propagate::propagate_all;
use rules::row::Row;

// Writes the earliest plan of the windows that keeps every rule. The problem is settled on the way, and then means
// nothing more to the caller: a copy would be dear for a small sheet.
// That `days` is as long as the problem's windows is a clause: the two come from different hands.
pub fn earliest_plan(problem: &mut Problem, days: &mut [u32]) -> Result<(), Infeasible>
    requires { length days.old ≡ length (sheet_in problem.old).windows }
    ensures { Finds (sheet_in problem.old) result days.new }
{
    propagate_all(problem)?;
    plan_groups(problem, days)
}

// From the last group to the first, so that an impossible last group is found with no search of those before. What is
// found stays: no group looks at another. A `while`, since each turn goes back by a whole group.
fn plan_groups(problem: &Problem, days: &mut [u32]) -> Result<(), Infeasible>
    requires each { length days.old ≡ length (sheet_in problem.now).windows }
    requires firm { Firm (sheet_in problem.now) }
    ensures { Finds (sheet_in problem.now) result days.new }
{
    let mut room = *problem;
    let mut end = problem.windows().len();
    while end > 0 {
        let start = group_start(problem.rows(), end);
        plan_part(problem, start, end, &mut room, days)?;
        end = start;
    }
    Ok(())
}

// Where the group begins that ends before the lot `end`: at the nearest border before it that no stretch goes across.
fn group_start(rules: &[Row], end: usize) -> usize
    requires { 0 < end }
    ensures before { result < end }
    ensures border { Border result rules.now }
{
    (1..end)
        .rev()
        .find(|start| is_border(rules, *start))
        .unwrap_or(0)
}

// Does no stretch go across the border before the lot p?
fn is_border(rules: &[Row], p: usize) -> bool
    ensures { Decides result (Border p rules.now) }
{
    rules.iter().all(|row| !goes_across(row.stretch, p))
}

// Does a stretch have lots on both sides of the border before the lot p?
fn goes_across(stretch: Stretch, p: usize) -> bool
    ensures { Decides result ((stretch.first < p) × (p < stretch.first + stretch.length)) }
{
    stretch.first < p && stretch.has(p)
}

// The earliest plan of the lots from `start` on and before `end`, by the rules that lie there. The days after them
// stay. The room is for the problem of these lots, which is firm as the whole is.
fn plan_part(
    problem: &Problem,
    start: usize,
    end: usize,
    room: &mut Problem,
    days: &mut [u32],
) -> Result<(), Infeasible>
    requires each { length days.old ≡ length (sheet_in problem.now).windows }
    requires ordered { start ≤ end }
    requires there { end ≤ length (sheet_in problem.now).windows }
    requires firm { Firm (sheet_in problem.now) }
    ensures found { Finds (part_of start end (sheet_in problem.now)) result (part days.new start (end - start)) }
    ensures rest { drop end days.new ≡ drop end days.old }
{
    room.fill(problem, start, end);
    let mut limit = FailLimit::new();
    solve_firm(room, &mut limit)?;
    write_lows(room.windows(), &mut days[start..end]);
    Ok(())
}
