// The questions about a sheet that are put to both solvers.
use crate::planner;
use crate::second::{counts, firm, plans};
use crate::told::{Score, tell};
use answers::small::Small;
use rules::row::Row;
use std::io;

pub fn settle(rt: &HostRuntime, score: &mut Score, sheet: &Small) -> io::Result<()> {
    let planner = planner::settled(rt.alloc(), sheet)?;
    let second = firm::settled(rt.alloc(), sheet)?;
    tell(rt, score, "settle", &planner, &second)
}

pub fn plan(rt: &HostRuntime, score: &mut Score, sheet: &Small) -> io::Result<()> {
    let planner = planner::planned(rt.alloc(), sheet)?;
    let second = plans::planned(rt.alloc(), sheet)?;
    tell(rt, score, "plan", &planner, &second)
}

// The fewest and the most days that the lots of each rule may take, whatever its count window.
pub fn bounds(rt: &HostRuntime, score: &mut Score, sheet: &Small) -> io::Result<()> {
    for (number, rule) in sheet.rules.iter().enumerate() {
        fewest(rt, score, sheet, number, rule)?;
        most(rt, score, sheet, number, rule)?;
    }
    Ok(())
}

fn fewest(
    rt: &HostRuntime,
    score: &mut Score,
    sheet: &Small,
    number: usize,
    rule: &Row,
) -> io::Result<()> {
    let planner = planner::fewest_days(rt.alloc(), sheet, rule)?;
    let second = counts::fewest_days(rt.alloc(), sheet, rule)?;
    let asked = format!(in rt.alloc(); "fewest days of rule {number}")?;
    tell(rt, score, &asked, &planner, &second)
}

fn most(
    rt: &HostRuntime,
    score: &mut Score,
    sheet: &Small,
    number: usize,
    rule: &Row,
) -> io::Result<()> {
    let planner = planner::most_days(rt.alloc(), sheet, rule)?;
    let second = counts::most_days(rt.alloc(), sheet, rule)?;
    let asked = format!(in rt.alloc(); "most days of rule {number}")?;
    tell(rt, score, &asked, &planner, &second)
}
