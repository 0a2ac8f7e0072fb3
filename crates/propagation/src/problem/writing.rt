// Writing a problem.
ghost use Rattle.std.specs.Prelude.{◌≡◌, ◌+◌, ◌<◌, ◌≤◌, length};
ghost use Rattle.store.specs.Sound.{Sound};
ghost use Rattle.propagation.specs.Changes.{with_count, with_window, with_windows};
ghost use Rattle.propagation.specs.Problems.{lots_in, sheet_in};

use super::Problem;
use nvalue::count_window::CountWindow;
use nvalue::season::Season;
use propagator::copy::copy;
use rules::row::Row;
use store::window::Window;

impl Problem {
    // Gives a lot another window.
    pub fn put(&mut self, lot: usize, window: Window)
        requires there { lot < length (sheet_in self.old).windows }
        requires sound { Sound window }
        ensures sheet { sheet_in self.new ≡ with_window lot window (sheet_in self.old) }
        ensures lots { lots_in self.new ≡ lots_in self.old }
    {
        self.windows[lot] = window;
    }

    // Gives the lots from `first` on these windows.
    pub(crate) fn write(&mut self, first: usize, season: Season)
        requires { first + length season.windows.now ≤ length (sheet_in self.old).windows }
        ensures sheet { sheet_in self.new ≡ with_windows first season.entry.windows.now (sheet_in self.old) }
        ensures lots { lots_in self.new ≡ lots_in self.old }
    {
        let end = first + season.windows.len();
        copy(season.windows, &mut self.windows[first..end]);
    }

    // Gives a rule another count window.
    pub(crate) fn recount(&mut self, number: usize, count: CountWindow)
        requires there { number < length (sheet_in self.old).rules }
        requires few { count.ceiling ≤ 256 }
        ensures sheet { sheet_in self.new ≡ with_count number count (sheet_in self.old) }
        ensures lots { lots_in self.new ≡ lots_in self.old }
    {
        let row = self.rows[number];
        self.rows[number] = Row {
            floor: count.floor(),
            ceiling: count.ceiling(),
            ..row
        };
    }
}
