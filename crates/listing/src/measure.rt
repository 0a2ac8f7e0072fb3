// How many bytes each line takes, and all lines of a plan: known before anything is written.
ghost use Rattle.std.specs.Prelude.{◌≡◌, ◌≤◌, length};
ghost use Rattle.nvalue.specs.Nvalue.{nvalue};
ghost use Rattle.listing.specs.Text.{lines_from, list_of, lot_line, refusal_line};

use decimal::number::digits;

// The whole text of a plan that has so many different days.
pub fn list_length(days: &[u32], count: usize) -> usize
    requires few { length days.now ≤ 256 }
    requires count { count ≡ nvalue days.now }
    ensures { result ≡ length (list_of days.now) }
{
    lines_length(days) + b"days ".len() + digits(count) + 1
}

// The lines of the lots.
fn lines_length(days: &[u32]) -> usize
    requires { length days.now ≤ 256 }
    ensures exact { result ≡ length (lines_from 0 days.now) }
    ensures few { result ≤ 12800 }
{
    // A loop and no `sum`: what is proved is how the total grows with the text.
    let mut total = 0;
    for (lot, day) in days.iter().enumerate() {
        total += lot_length(lot, *day);
    }
    total
}

fn lot_length(lot: usize, day: u32) -> usize
    ensures exact { result ≡ length (lot_line lot day) }
    ensures few { result ≤ 50 }
{
    b"lot ".len() + digits(lot) + b" day ".len() + digits(day as usize) + 1
}

// The line of a refusal.
pub fn refusal_length(number: u32, place: usize) -> usize
    ensures { result ≡ length (refusal_line number place) }
{
    b"refused ".len() + digits(number as usize) + b" place ".len() + digits(place) + 1
}
