// The number of different days in a slice.
ghost use Rattle.std.specs.Prelude.{◌≡◌};
ghost use Rattle.nvalue.specs.Nvalue.{nvalue, CountOf};

// How many different days there are: each counts where it stands for the last time.
pub fn different_days(days: &[u32]) -> usize
    ensures value { result ≡ nvalue days.now }
    ensures counts { CountOf days.now result }
{
    let mut count = 0;
    let mut rest = days;
    while let Some((day, later)) = rest.split_first() {
        if !later.contains(day) {
            count += 1;
        }
        rest = later;
    }
    count
}
