// The window store: a list of windows whose ends can be moved towards each other.
ghost use Rattle.std.specs.Prelude.{◌≡◌, ℕ, List, length};
ghost use Rattle.store.specs.declared.half_line.HalfLine.TheVariants.{From, UpTo};
ghost use Rattle.store.specs.declared.window.Window.{Window};
ghost use Rattle.store.specs.Windows.{low_at, high_at, found, Onward, Trims};

use crate::fault::StoreFault;
use crate::half_line::HalfLine;
use crate::window::Window;

pub trait WindowStore {
    // The whole meaning of a store: its windows, in the order of the lots.
    ghost windows: { Self → List Window };

    // The numbers in lent memory that the store stands on,
    ghost memory: { Self → List ℕ };

    // and what they are once the windows have been narrowed to these.
    ghost reached: { Self → List Window → List ℕ };

    // What no call changes: which memory was lent, a layer's constant.
    ghost Frame: { Type 0 };

    ghost frame: { Self → Frame };

    // How many lots there are.
    fn lots(&self) -> usize
        ensures { result ≡ length (windows self.now) };

    // The first day of a lot's window; absent where there is no such lot.
    fn low(&self, place: usize) -> Option<u32>
        ensures value { result ≡ low_at (windows self.now) place };

    // The last day of a lot's window; absent where there is no such lot.
    fn high(&self, place: usize) -> Option<u32>
        ensures value { result ≡ high_at (windows self.now) place };

    // Leaves a lot's window no days but those of a half-line.
    fn trim(&mut self, place: usize, days: HalfLine) -> Result<(), StoreFault>
        ensures trims { Trims (windows self.old) place days result (windows self.new) }
        ensures reach { Onward (reached self.old) (reached self.new) (windows self.new) }
        ensures framed { frame self.new ≡ frame self.old };

    // Moves the first day up to `day`, where it lies below.
    fn raise(&mut self, place: usize, day: u32) -> Result<(), StoreFault>
        ensures trims { Trims (windows self.old) place (From day) result (windows self.new) }
        ensures reach { Onward (reached self.old) (reached self.new) (windows self.new) }
        ensures framed { frame self.new ≡ frame self.old }
    {
        self.trim(place, HalfLine::From(day))
    }

    // Moves the last day down to `day`, where it lies above.
    fn lower(&mut self, place: usize, day: u32) -> Result<(), StoreFault>
        ensures trims { Trims (windows self.old) place (UpTo day) result (windows self.new) }
        ensures reach { Onward (reached self.old) (reached self.new) (windows self.new) }
        ensures framed { frame self.new ≡ frame self.old }
    {
        self.trim(place, HalfLine::UpTo(day))
    }

    // Where no window has moved, the memory is as it is.
    ghost here: { (s : Self) → reached s (windows s) ≡ memory s };
}

// Both ends of a lot's window at once.
pub fn read_window<S: WindowStore>(store: &S, place: usize) -> Option<Window>
    ensures { result ≡ found (S.WindowStore.windows store.now) place }
{
    let low = store.low(place)?;
    let high = store.high(place)?;
    Some(Window { low, high })
}
