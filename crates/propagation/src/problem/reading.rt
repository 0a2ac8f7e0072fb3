// Reading a problem.
ghost use Rattle.std.specs.Prelude.{◌≡◌, ◌<◌, ◌≤◌, length};
ghost use Rattle.nvalue.specs.Choices.{part};
ghost use Rattle.nvalue.specs.Stretches.{LiesWithin};
ghost use Rattle.rules.specs.Sheets.{rule_at};
ghost use Rattle.propagation.specs.Problems.{lots_in, sheet_in};

use super::Problem;
use nvalue::count_window::CountWindow;
use nvalue::season::Season;
use nvalue::stretch::Stretch;
use rules::row::Row;
use store::window::Window;

impl Problem {
    // The window of each lot.
    pub fn windows(&self) -> &[Window]
        ensures { result.now ≡ (sheet_in self.now).windows }
    {
        &self.windows[..self.lots]
    }

    // The rules.
    pub fn rows(&self) -> &[Row]
        ensures { result.now ≡ (sheet_in self.now).rules }
    {
        &self.rows[..self.rules]
    }

    // The windows of a stretch.
    pub(crate) fn season(&self, stretch: Stretch) -> Season<'_>
        requires { LiesWithin (lots_in self.now) stretch }
        ensures { result.windows.now ≡ part (sheet_in self.now).windows stretch.first stretch.length }
    {
        let first = stretch.first;
        Season {
            windows: &self.windows()[first..first + stretch.length],
        }
    }

    // The count window of a rule.
    pub(crate) fn count(&self, number: usize) -> CountWindow
        requires { number < length (sheet_in self.now).rules }
        ensures floor { result.floor ≡ (rule_at (sheet_in self.now).rules number).floor }
        ensures ceiling { result.ceiling ≡ (rule_at (sheet_in self.now).rules number).ceiling }
    {
        let row = self.rows[number];
        CountWindow::new(row.floor, row.ceiling).unwrap()
    }
}
