// Plain counts of different days.
use crate::second::choices::all_choices;
use answers::answer::Answer;
use answers::small::Small;
use rules::row::Row;
use std::alloc::{AllocError, Global};
use store::window::Window;

// A day counts where no earlier lot has it.
pub fn count_days(days: &[u32]) -> usize {
    days.iter()
        .enumerate()
        .filter(|(place, day)| !days.iter().take(*place).any(|other| other == *day))
        .count()
}

// The days of the lots that a rule is over.
pub fn days_under<'a>(rule: &Row, days: &'a [u32]) -> &'a [u32] {
    let rest = days.get(rule.stretch.first..).unwrap_or(&[]);
    rest.get(..rule.stretch.length).unwrap_or(rest)
}

// Their windows.
pub fn windows_under<'a>(rule: &Row, windows: &'a [Window]) -> &'a [Window] {
    let rest = windows.get(rule.stretch.first..).unwrap_or(&[]);
    rest.get(..rule.stretch.length).unwrap_or(rest)
}

pub fn keeps(rule: &Row, days: &[u32]) -> bool {
    allows(rule, days_under(rule, days))
}

// The same of the days of its lots alone.
pub fn allows(rule: &Row, days: &[u32]) -> bool {
    let count = count_days(days);
    rule.floor as usize <= count && count <= rule.ceiling as usize
}

// The least count of any choice for the lots of a rule, whatever its count window.
pub fn fewest_days(alloc: Global, sheet: &Small, rule: &Row) -> Result<Answer, AllocError> {
    let choices = all_choices(alloc, &sheet.windows)?;
    let counts = choices
        .iter()
        .map(|days| count_days(days_under(rule, days)));
    Ok(Answer::Number(counts.min().unwrap_or(0) as u64))
}

// The greatest.
pub fn most_days(alloc: Global, sheet: &Small, rule: &Row) -> Result<Answer, AllocError> {
    let choices = all_choices(alloc, &sheet.windows)?;
    let counts = choices
        .iter()
        .map(|days| count_days(days_under(rule, days)));
    Ok(Answer::Number(counts.max().unwrap_or(0) as u64))
}
