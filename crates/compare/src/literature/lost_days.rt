// Which days a limit takes from each lot. A window has no gaps, so it cannot show a lost day between two used ones;
// the second solver finds these too.
use crate::second::choices::Days;
use crate::second::lost::{lost_at_ends, lost_inside};
use crate::second::plans::all_plans;
use crate::told::{Score, tell};
use crate::{asked, planner};
use answers::answer::Answer;
use answers::shown::Listed;
use answers::small::{Small, rule};
use rules::row::Row;
use std::alloc::{AllocError, Global};
use std::io;
use store::window::Window;

const ON_TWO_DAYS: [(u32, u32); 6] = [(2, 4), (2, 5), (4, 5), (4, 7), (5, 8), (6, 9)];

const ON_FIVE_DAYS: [(u32, u32); 6] = [(2, 4), (2, 3), (4, 5), (2, 3), (2, 3), (5, 6)];

pub fn show(rt: &HostRuntime, score: &mut Score) -> io::Result<()> {
    ask(
        rt,
        score,
        "six lots on two days",
        &ON_TWO_DAYS,
        rule(0, 6, 0, 2),
    )?;
    ask(
        rt,
        score,
        "six lots on five days",
        &ON_FIVE_DAYS,
        rule(0, 6, 5, 6),
    )
}

fn ask(
    rt: &HostRuntime,
    score: &mut Score,
    name: &str,
    ends: &[(u32, u32)],
    rule: Row,
) -> io::Result<()> {
    let sheet = Small::new(rt.alloc(), ends, &[rule])?;
    println!(rt; "{name}: {sheet}")?;
    asked::settle(rt, score, &sheet)?;
    asked::plan(rt, score, &sheet)?;
    let Answer::Windows(settled) = planner::settled(rt.alloc(), &sheet)? else {
        return println!(rt; "  no firm windows");
    };
    let plans = all_plans(rt.alloc(), &sheet)?;
    let both = sheet.windows.iter().zip(settled.windows.iter());
    for (lot, (before, after)) in both.enumerate() {
        let planner = Answer::Days(cut_off(rt.alloc(), *before, *after)?);
        tell_lost(rt, score, &plans, lot, *before, &planner)?;
    }
    Ok(())
}

// The lost days of one lot: at the ends of its window by both, and then those inside.
fn tell_lost(
    rt: &HostRuntime,
    score: &mut Score,
    plans: &[Days],
    lot: usize,
    window: Window,
    planner: &Answer,
) -> io::Result<()> {
    let second = lost_at_ends(rt.alloc(), plans, lot, window)?;
    let asked = format!(in rt.alloc(); "lot {lot}, days lost at the ends")?;
    tell(rt, score, &asked, planner, &second)?;
    let inside = lost_inside(rt.alloc(), plans, lot, window)?;
    if inside.is_empty() {
        return Ok(());
    }
    let listed = Listed { days: &inside };
    println!(rt; "  lot {lot}, days lost inside, which no window shows: second solver {listed}")
}

// The days that settling took off the ends of a window.
fn cut_off(alloc: Global, before: Window, after: Window) -> Result<Days, AllocError> {
    (before.low..=before.high)
        .filter(|day| *day < after.low || after.high < *day)
        .collect(alloc)
}
