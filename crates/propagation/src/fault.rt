// Why a problem cannot be made firm.

// No firm sheet lies inside the problem's.
#[derive(Clone, Copy, PartialEq, Eq, Debug)]
pub struct Inconsistent;
