// What a solver answers, and whether two answers are the same.
ghost use Rattle.std.specs.Prelude.{◌≡◌, Decides};
ghost use Rattle.answers.specs.Answers.{Same};

use crate::small::Small;
use rules::row::Row;
use store::window::Window;

#[derive(Drop)]
pub enum Answer {
    // the windows of all lots and the rules, as they are now
    Windows(Small),
    // a day for each lot, and how many different days that is
    Plan(Vec<u32>, usize),
    // some days
    Days(Vec<u32>),
    // a count, or a mask
    Number(u64),
    // yes or no
    Holds(bool),
    // refused, with this number
    Refused(u32),
}

// Do both solvers answer the same? What is printed and the program's status hang on this alone, so it is proved.
pub fn agree(planner: &Answer, second: &Answer) -> bool
    ensures { Decides result (Same planner.now second.now) }
{
    match (planner, second) {
        (Answer::Windows(a), Answer::Windows(b)) => same_windows(&a.windows, &b.windows)
            && same_rules(&a.rules, &b.rules),
        (Answer::Plan(a, m), Answer::Plan(b, n)) => same_days(a, b) && m == n,
        (Answer::Days(a), Answer::Days(b)) => same_days(a, b),
        (Answer::Number(a), Answer::Number(b)) => a == b,
        (Answer::Holds(a), Answer::Holds(b)) => a == b,
        (Answer::Refused(a), Answer::Refused(b)) => a == b,
        _ => false,
    }
}

fn same_windows(a: &[Window], b: &[Window]) -> bool
    ensures { Decides result (a.now ≡ b.now) }
{
    a == b
}

fn same_rules(a: &[Row], b: &[Row]) -> bool
    ensures { Decides result (a.now ≡ b.now) }
{
    a == b
}

fn same_days(a: &[u32], b: &[u32]) -> bool
    ensures { Decides result (a.now ≡ b.now) }
{
    a == b
}
