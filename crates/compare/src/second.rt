// The second solver: it tries every choice of days, and calls nothing of the planner. The types of a window and of a
// rule are all that it shares.
pub mod calendars;
pub mod choices;
pub mod counts;
pub mod firm;
pub mod lost;
pub mod plans;

// The numbers by which a house knows that nothing is firm, and that there is no plan (docs/SHEET.md).
const NO_FIRM_WINDOWS: u32 = 25;

const NO_PLAN: u32 = 26;
