// Generated sheets, settled and planned by both solvers.
mod draw;
mod tally;

use crate::planner;
use crate::random::draw::Draw;
use crate::random::tally::{Tally, count};
use crate::second::{firm, plans};
use crate::told::Score;
use answers::answer::Answer;
use answers::small::Small;
use rules::row::Row;
use std::alloc::{AllocError, Global};
use std::io;

const SHEETS: usize = 20_000;

pub fn show(rt: &HostRuntime, score: &mut Score) -> io::Result<()> {
    let mut draw = Draw::new(2026);
    let mut tally = Tally::default();
    for _ in 0..SHEETS {
        let sheet = draw.sheet(rt.alloc())?;
        compare(rt.alloc(), &sheet, score, &mut tally)?;
    }
    println!(rt; "{tally}")
}

// Asks both solvers, and adds what they say to score and tally.
fn compare(
    alloc: Global,
    sheet: &Small,
    score: &mut Score,
    tally: &mut Tally,
) -> Result<(), AllocError> {
    let firm = firm::settled(alloc, sheet)?;
    let plan = plans::planned(alloc, sheet)?;
    let settle_agrees = score.add(&planner::settled(alloc, sheet)?, &firm);
    let plan_agrees = score.add(&planner::planned(alloc, sheet)?, &plan);
    count(&mut tally.sheets, true);
    count(&mut tally.overlapping, share_lots(&sheet.rules));
    count(&mut tally.settle_agrees, settle_agrees);
    count(&mut tally.plan_agrees, plan_agrees);
    match (&firm, &plan) {
        (Answer::Refused(_), _) => count(&mut tally.no_firm, true),
        (_, Answer::Refused(_)) => count(&mut tally.firm_but_no_plan, true),
        _ => count(&mut tally.planned, true),
    }
    Ok(())
}

// Some two rules are over a common lot.
fn share_lots(rules: &[Row]) -> bool {
    let mut numbered = rules.iter().enumerate();
    numbered.any(|(number, rule)| {
        let mut earlier = rules.iter().take(number);
        earlier.any(|other| overlap(rule, other))
    })
}

fn overlap(a: &Row, b: &Row) -> bool {
    let (a, b) = (a.stretch, b.stretch);
    a.first < b.first.saturating_add(b.length) && b.first < a.first.saturating_add(a.length)
}
