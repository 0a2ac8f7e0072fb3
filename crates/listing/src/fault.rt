// Why a plan is not listed. A refusal writes nothing.
ghost use Rattle.std.specs.Prelude.{◌≡◌, Some};
ghost use Rattle.listing.specs.Faults.{fault_text, number_of, place_of};

use std::fmt;

#[derive(Clone, Copy, PartialEq, Eq, Debug)]
pub enum ListFault {
    // more than 256 days
    TooManyLots,
    // fewer bytes than the text has
    ShortBytes,
}

impl ListFault {
    // The number by which a house knows this refusal.
    pub fn number(self) -> u32
        ensures { result ≡ number_of self }
    {
        match self {
            ListFault::ShortBytes => 7,
            ListFault::TooManyLots => 20,
        }
    }

    // None of them names a lot or a rule.
    pub fn place(self) -> usize
        ensures { result ≡ place_of self }
    {
        match self {
            ListFault::ShortBytes => 0,
            ListFault::TooManyLots => 0,
        }
    }
}

impl fmt::Display for ListFault {
    ghost output = { λ fault. Some (fault_text fault) };

    fn fmt<W: fmt::Write>(&self, f: &mut fmt::Formatter<W>) -> fmt::Result {
        write!(f, "refused {} place {}", self.number(), self.place())
    }
}
