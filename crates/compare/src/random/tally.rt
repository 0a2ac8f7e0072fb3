// What the generated sheets were, and how the answers of both solvers came out.
use std::fmt;

#[derive(Clone, Copy, Default)]
pub struct Tally {
    pub sheets: u32,
    pub overlapping: u32,
    pub settle_agrees: u32,
    pub plan_agrees: u32,
    pub no_firm: u32,
    pub firm_but_no_plan: u32,
    pub planned: u32,
}

// Adds one to a number of the tally where what it counts is so.
pub fn count(number: &mut u32, is_so: bool) {
    if is_so {
        *number = number.saturating_add(1);
    }
}

impl fmt::Display for Tally {
    fn fmt<W: fmt::Write>(&self, f: &mut fmt::Formatter<W>) -> fmt::Result {
        let Tally {
            sheets,
            overlapping,
            settle_agrees,
            plan_agrees,
            no_firm,
            firm_but_no_plan,
            planned,
        } = *self;
        let settle_differs = sheets.saturating_sub(settle_agrees);
        let plan_differs = sheets.saturating_sub(plan_agrees);
        writeln!(
            f,
            "{sheets} small sheets, settled and planned by both solvers"
        )?;
        writeln!(f, "  rules that share lots: {overlapping}")?;
        writeln!(
            f,
            "  settle agrees on {settle_agrees}, differs on {settle_differs}"
        )?;
        writeln!(
            f,
            "  plan agrees on {plan_agrees}, differs on {plan_differs}"
        )?;
        writeln!(f, "  no firm windows: {no_firm}")?;
        writeln!(f, "  firm windows, but no plan: {firm_but_no_plan}")?;
        write!(f, "  planned: {planned}")
    }
}
