// How many days may fail before the search looks for a proof that there is no plan, and how much it spends on that.
// All of it is speed: no contract speaks of it.
use crate::tries::Tries;

// How many days may fail before the first look.
const FAILURES: u32 = 20;

// How many tries it has.
const TRIES: u32 = 100;

// How many more days may fail before the next look for a proof, and how many tries that one has.
#[derive(Drop, Debug)]
pub struct FailLimit {
    pub(crate) failures: Tries,
    pub(crate) tries: u32,
}

impl FailLimit {
    // No day has failed yet.
    pub fn new() -> FailLimit {
        FailLimit {
            failures: Tries::new(FAILURES),
            tries: TRIES,
        }
    }

    // No proof was found: as many days may fail now as the look had tries, and the next one has twice as many. So
    // looks in vain take about as long as the search itself, and where it takes long they get many tries.
    pub(crate) fn renew(&mut self) {
        self.failures = Tries::new(self.tries);
        self.tries = self.tries.saturating_mul(2);
    }
}
