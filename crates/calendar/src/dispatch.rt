// The dispatch layer: any store, read in days before the day of dispatch.
ghost use Rattle.std.specs.Prelude.{◌≡◌, ℕ, ◌-◌, List, map};
ghost use Rattle.calendar.specs.Calendars.{until, before_dispatch, dispatch_days, dispatch_window, Shown};
ghost use Rattle.std.proofs.Common.{ap, ap₂, ◌∙◌};
ghost use Rattle.store.proofs.Each.{each_same, where_same_same};
ghost use Rattle.store.specs.Each.{each};
ghost use Rattle.store.specs.Windows.{window, found, low_at, high_at};
ghost use Rattle.store.specs.declared.window.Window.{Window};

use store::fault::StoreFault;
use store::half_line::HalfLine;
use store::step::{Step, judge};
use store::store::WindowStore;
use store::window::Window;

// Not one generic type with the period layer: how days are shown and read back is all that makes a layer.
#[derive(Drop)]
pub struct Dispatch<S> {
    below: S,
    last: u32,
}

impl<S> Dispatch<S> {
    // The store `below` as it looks from `last`, the day of dispatch.
    pub fn new(below: S, last: u32) -> Dispatch<S>
        ensures { (result.below ≡ below) × (result.last ≡ last) }
    {
        Dispatch { below, last }
    }

    // Takes the layer off.
    pub fn into_below(self) -> S
        ensures { result ≡ self.below }
    {
        let Dispatch { below, last: _ } = self;
        below
    }
}

impl<S: WindowStore> Dispatch<S> {
    // A lot's window as the layer shows it.
    fn window(&self, place: usize) -> Option<Window>
        ensures { result ≡ found (⟦<Dispatch<S> as WindowStore>⟧.windows self.now) place }
    {
        let low = shown(self.last, self.below.high(place))?;
        let high = shown(self.last, self.below.low(place))?;
        Some(Window { low, high })
    }
}

impl<S: WindowStore> WindowStore for Dispatch<S> {
    ghost windows = { λ s. map (before_dispatch s.last) (S.WindowStore.windows s.below) };

    ghost memory = { λ s. S.WindowStore.memory s.below };

    ghost reached = { λ s ws. S.WindowStore.reached s.below (each (dispatch_window s.last) (S.WindowStore.windows s.below) ws) };

    ghost Frame = { ℕ × S.WindowStore.Frame };

    ghost frame = { λ s. (s.last, S.WindowStore.frame s.below) };

    ghost here = { λ s. ap (S.WindowStore.reached s.below)
        (each_same (before_dispatch s.last) (dispatch_window s.last)
        (λ w. ap₂ window (where_same_same (until s.last w.low) _ _) (where_same_same (until s.last w.high) _ _))
        (S.WindowStore.windows s.below))
        ∙ S.WindowStore.here s.below };

    fn lots(&self) -> usize {
        self.below.lots()
    }

    fn low(&self, place: usize) -> Option<u32> {
        shown(self.last, self.below.high(place))
    }

    fn high(&self, place: usize) -> Option<u32> {
        shown(self.last, self.below.low(place))
    }

    fn trim(&mut self, place: usize, days: HalfLine) -> Result<(), StoreFault> {
        match judge(self.window(place), days)? {
            Step::Stays => Ok(()),
            Step::Moves(_) => self.below.trim(place, days_below(self.last, days)),
        }
    }
}

// A day below, if there is one, as days before dispatch. Saturating on purpose: a day after dispatch shows as 0.
// It is the other end that it is shown at.
fn shown(last: u32, day: Option<u32>) -> Option<u32>
    ensures lows { Shown (before_dispatch last) high_at low_at day result }
    ensures highs { Shown (before_dispatch last) low_at high_at day result }
{
    Some(last.saturating_sub(day?))
}

// The days below that a half-line of days before dispatch stands for.
fn days_below(last: u32, days: HalfLine) -> HalfLine
    ensures { result ≡ dispatch_days last days }
{
    match days {
        HalfLine::From(day) => HalfLine::UpTo(last.saturating_sub(day)),
        HalfLine::UpTo(day) => HalfLine::From(last.saturating_sub(day)),
    }
}
