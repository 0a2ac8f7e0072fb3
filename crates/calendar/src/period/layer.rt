// The period layer: any store, read in periods of a fixed number of days, as weeks.
ghost use Rattle.std.specs.Prelude.{◌≡◌, ℕ, ◌*◌, ◌^◌, ◌<◌, List, map, IfSome};
ghost use Rattle.calendar.specs.Calendars.{period_of, in_periods, period_days, period_window, Shown};
ghost use Rattle.std.proofs.Common.{ap, ap₂, ◌∙◌};
ghost use Rattle.store.proofs.Each.{each_same, where_same_same};
ghost use Rattle.store.specs.Each.{each};
ghost use Rattle.store.specs.Windows.{end_of, window, found, low_at, high_at};
ghost use Rattle.store.specs.declared.window.Window.{Window};

use super::PeriodLength;
use store::fault::StoreFault;
use store::half_line::HalfLine;
use store::step::{Step, judge};
use store::store::WindowStore;
use store::window::Window;

#[derive(Drop)]
pub struct Period<S> {
    below: S,
    length: PeriodLength,
}

impl<S> Period<S> {
    // The store `below` in periods of that length.
    pub fn new(below: S, length: PeriodLength) -> Period<S>
        ensures { (result.below ≡ below) × (result.length ≡ length) }
    {
        Period { below, length }
    }

    // Takes the layer off.
    pub fn into_below(self) -> S
        ensures { result ≡ self.below }
    {
        let Period { below, length: _ } = self;
        below
    }
}

impl<S: WindowStore> Period<S> {
    // A lot's window as the layer shows it: the first day of its last period is a word.
    fn window(&self, place: usize) -> Option<Window>
        ensures value { result ≡ found (⟦<Period<S> as WindowStore>⟧.windows self.now) place }
        ensures word { IfSome result (λ w. self.now.length.days * w.high < 2 ^ 32) }
    {
        let low = shown(self.length, self.below.low(place))?;
        let high = shown(self.length, self.below.high(place))?;
        Some(Window { low, high })
    }
}

impl<S: WindowStore> WindowStore for Period<S> {
    ghost windows = { λ s. map (in_periods s.length.days) (S.WindowStore.windows s.below) };

    ghost memory = { λ s. S.WindowStore.memory s.below };

    ghost reached = { λ s ws. S.WindowStore.reached s.below (each (period_window s.length.days) (S.WindowStore.windows s.below) ws) };

    ghost Frame = { ℕ × S.WindowStore.Frame };

    ghost frame = { λ s. (s.length.days, S.WindowStore.frame s.below) };

    ghost here = { λ s. ap (S.WindowStore.reached s.below)
        (each_same (in_periods s.length.days) (period_window s.length.days)
        (λ w. ap₂ window (where_same_same (period_of s.length.days w.low) _ _) (where_same_same (period_of s.length.days w.high) _ _))
        (S.WindowStore.windows s.below))
        ∙ S.WindowStore.here s.below };

    fn lots(&self) -> usize {
        self.below.lots()
    }

    fn low(&self, place: usize) -> Option<u32> {
        shown(self.length, self.below.low(place))
    }

    // A period that is shown has its first day among the words.
    fn high(&self, place: usize) -> Option<u32>
        ensures value { result ≡ high_at
            (map (in_periods self.now.length.days) (S.WindowStore.windows self.now.below)) place }
        ensures word { IfSome result (λ p. self.now.length.days * p < 2 ^ 32) }
    {
        shown(self.length, self.below.high(place))
    }

    fn trim(&mut self, place: usize, periods: HalfLine) -> Result<(), StoreFault> {
        match judge(self.window(place), periods)? {
            Step::Stays => Ok(()),
            Step::Moves(_) => self.below.trim(place, days_below(self.length, periods)),
        }
    }
}

// The period of a day below, if there is one.
fn shown(length: PeriodLength, day: Option<u32>) -> Option<u32>
    ensures lows { Shown (in_periods length.days) low_at low_at day result }
    ensures highs { Shown (in_periods length.days) high_at high_at day result }
    ensures word { IfSome result (λ p. length.days * p < 2 ^ 32) }
{
    Some(day? / length.days)
}

// The days below that a half-line of periods stands for: from a first day on, or up to a last one.
fn days_below(length: PeriodLength, periods: HalfLine) -> HalfLine
    requires { end_of (period_days length.days periods) < 2 ^ 32 }
    ensures { result ≡ period_days length.days periods }
{
    match periods {
        HalfLine::From(period) => HalfLine::From(length.days * period),
        HalfLine::UpTo(period) => HalfLine::UpTo(length.days * period + (length.days - 1)),
    }
}
