// The greatest firm windows, found by taking one day at a time off a window.
use crate::second::NO_FIRM_WINDOWS;
use crate::second::choices::Choices;
use crate::second::counts::{allows, count_days, windows_under};
use answers::answer::Answer;
use answers::small::Small;
use rules::row::Row;
use std::alloc::{AllocError, Global};
use store::window::Window;

// More than any small sheet has days to take off.
const ENOUGH: usize = 1000;

pub fn settled(alloc: Global, sheet: &Small) -> Result<Answer, AllocError> {
    match greatest_firm(alloc, sheet)? {
        Some(left) => Ok(Answer::Windows(left)),
        None => Ok(Answer::Refused(NO_FIRM_WINDOWS)),
    }
}

// Moves ends inwards day by day, as long as one is used by no choice.
fn greatest_firm(alloc: Global, sheet: &Small) -> Result<Option<Small>, AllocError> {
    let mut left = sheet.clone()?;
    for _ in 0..ENOUGH {
        if left.windows.iter().any(|window| window.low > window.high) {
            return Ok(None);
        }
        let next = narrowed(alloc, &left)?;
        if next == left {
            return Ok(Some(left));
        }
        left = next;
    }
    Ok(None)
}

// The sheet with each end that no choice uses one further in. Where a rule is kept by no choice, its count window or
// the windows of its lots become empty. Rule by rule, since only the windows of its own lots matter to it.
fn narrowed(alloc: Global, sheet: &Small) -> Result<Small, AllocError> {
    let mut next = sheet.clone()?;
    for (number, rule) in sheet.rules.iter().enumerate() {
        let windows = windows_under(rule, &sheet.windows);
        let mut choices = Choices::new(alloc, windows)?;
        narrow_windows(rule, windows, &mut choices, &mut next.windows);
        if let Some(row) = next.rules.get_mut(number) {
            *row = narrowed_count(*rule, &mut choices);
        }
    }
    Ok(next)
}

fn narrow_windows(rule: &Row, windows: &[Window], choices: &mut Choices, next: &mut [Window]) {
    for (place, window) in windows.iter().enumerate() {
        if let Some(left) = next.get_mut(rule.stretch.first.saturating_add(place)) {
            narrow_window(rule, place, *window, choices, left);
        }
    }
}

fn narrow_window(
    rule: &Row,
    place: usize,
    window: Window,
    choices: &mut Choices,
    next: &mut Window,
) {
    if !is_used(rule, place, window.low, choices) {
        next.low = window.low.saturating_add(1);
    }
    if !is_used(rule, place, window.high, choices) {
        next.high = window.high.saturating_sub(1);
    }
}

fn narrowed_count(rule: Row, choices: &mut Choices) -> Row {
    let mut next = rule;
    if !is_counted(rule.floor, choices) {
        next.floor = rule.floor.saturating_add(1);
    }
    if !is_counted(rule.ceiling, choices) {
        next.ceiling = rule.ceiling.saturating_sub(1);
    }
    next
}

// Some choice for the rule's lots that it allows gives this day to the lot at that place among them.
fn is_used(rule: &Row, place: usize, day: u32, choices: &mut Choices) -> bool {
    choices.restart();
    for _ in 0..u64::MAX {
        let Some(days) = choices.next() else {
            return false;
        };
        if days.get(place) == Some(&day) && allows(rule, days) {
            return true;
        }
    }
    false
}

// Some choice for a rule's lots has this count.
fn is_counted(count: u32, choices: &mut Choices) -> bool {
    choices.restart();
    for _ in 0..u64::MAX {
        let Some(days) = choices.next() else {
            return false;
        };
        if count_days(days) == count as usize {
            return true;
        }
    }
    false
}
