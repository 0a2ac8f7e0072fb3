// Three lots on at most two days: ten choices are plans. Each choice is planned as the only one, and the planner
// accepts just those ten.
use crate::second::choices::all_choices;
use crate::second::plans;
use crate::told::{Score, tell};
use crate::{asked, planner};
use answers::answer::Answer;
use answers::shown::Listed;
use answers::small::{Small, rule};
use std::io;

pub fn show(rt: &HostRuntime, score: &mut Score) -> io::Result<()> {
    let ends = [(2, 4), (1, 2), (2, 4)];
    let sheet = Small::new(rt.alloc(), &ends, &[rule(0, 3, 0, 2)])?;
    println!(rt; "three lots on two days: {sheet}")?;
    asked::settle(rt, score, &sheet)?;
    asked::plan(rt, score, &sheet)?;
    let mut accepted: u64 = 0;
    for days in all_choices(rt.alloc(), &sheet.windows)? {
        if try_choice(rt, score, &sheet, &days)? {
            accepted = accepted.saturating_add(1);
        }
    }
    let found = plans::all_plans(rt.alloc(), &sheet)?.len();
    let planner = Answer::Number(accepted);
    let second = Answer::Number(found as u64);
    tell(rt, score, "plans in all", &planner, &second)
}

// Plans the sheet with each window fixed to the day of the choice, and says whether the planner finds a plan.
fn try_choice(
    rt: &HostRuntime,
    score: &mut Score,
    sheet: &Small,
    days: &[u32],
) -> io::Result<bool> {
    let fixed = Small::fixed(rt.alloc(), days, &sheet.rules)?;
    let planner = planner::planned(rt.alloc(), &fixed)?;
    let second = plans::planned(rt.alloc(), &fixed)?;
    let listed = Listed { days };
    let asked = format!(in rt.alloc(); "only {listed}")?;
    tell(rt, score, &asked, &planner, &second)?;
    Ok(matches!(planner, Answer::Plan(..)))
}
