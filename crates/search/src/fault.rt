// Why the search fails.
use propagation::fault::Inconsistent;

// The problem has no plan.
#[derive(Clone, Copy, PartialEq, Eq, Debug)]
pub struct Infeasible;

// A problem that cannot be made firm has no plan.
impl From<Inconsistent> for Infeasible {
    ghost from_gives = { λ _ _. Unit {0} };

    fn from(_fault: Inconsistent) -> Infeasible {
        Infeasible
    }
}
