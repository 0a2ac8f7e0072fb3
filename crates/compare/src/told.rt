// A line for each question with the answers of both solvers, and how many of them agree.
use answers::answer::{Answer, agree};
use std::{fmt, io};

// How many answers agree so far, and how many differ.
#[derive(Clone, Copy, Default)]
pub struct Score {
    pub agree: u32,
    pub differ: u32,
}

impl Score {
    // Adds whether two answers agree, and says it.
    pub fn add(&mut self, planner: &Answer, second: &Answer) -> bool {
        let same = agree(planner, second);
        if same {
            self.agree = self.agree.saturating_add(1);
        } else {
            self.differ = self.differ.saturating_add(1);
        }
        same
    }
}

impl fmt::Display for Score {
    fn fmt<W: fmt::Write>(&self, f: &mut fmt::Formatter<W>) -> fmt::Result {
        let Score { agree, differ } = *self;
        write!(
            f,
            "In all, both solvers agree on {agree} answers, and differ on {differ}"
        )
    }
}

// One question: what the planner answers, what the second solver answers, and whether they agree.
pub fn tell(
    rt: &HostRuntime,
    score: &mut Score,
    asked: &str,
    planner: &Answer,
    second: &Answer,
) -> io::Result<()> {
    let verdict = if score.add(planner, second) {
        "they agree"
    } else {
        "THEY DIFFER"
    };
    println!(rt; "  {asked}: planner {planner}; second solver {second}; {verdict}")
}
