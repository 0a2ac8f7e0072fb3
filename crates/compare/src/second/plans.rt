// Plans, found by trying every choice.
use crate::second::NO_PLAN;
use crate::second::choices::{Choices, Days, all_choices};
use crate::second::counts::{count_days, keeps};
use answers::answer::Answer;
use answers::small::Small;
use std::alloc::{AllocError, Global};

// The first choice, by the day of the first lot, then of the second and so on, that keeps every rule.
pub fn planned(alloc: Global, sheet: &Small) -> Result<Answer, AllocError> {
    let mut choices = Choices::new(alloc, &sheet.windows)?;
    for _ in 0..u64::MAX {
        let Some(days) = choices.next() else {
            break;
        };
        if keeps_all(sheet, days) {
            return Ok(Answer::Plan(days.to_vec(alloc)?, count_days(days)));
        }
    }
    Ok(Answer::Refused(NO_PLAN))
}

// All choices that keep every rule, in order.
pub fn all_plans(alloc: Global, sheet: &Small) -> Result<Vec<Days>, AllocError> {
    let choices = all_choices(alloc, &sheet.windows)?;
    choices
        .into_iter()
        .filter(|days| keeps_all(sheet, days))
        .collect(alloc)
}

fn keeps_all(sheet: &Small, days: &[u32]) -> bool {
    sheet.rules.iter().all(|rule| keeps(rule, days))
}
