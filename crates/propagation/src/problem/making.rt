// Making a problem: of a room of windows, or of some lots of another problem.
ghost use Rattle.std.specs.Prelude.{◌≡◌, ◌≤◌, length, take};
ghost use Rattle.std.specs.List.{AllByRecursion};
ghost use Rattle.store.specs.Sound.{Sound};
ghost use Rattle.rules.specs.Parts.{part_of, within};
ghost use Rattle.rules.specs.Sheets.{Fits, sheet};
ghost use Rattle.propagation.specs.Problems.{sheet_in};

use super::{Problem, RULES};
use nvalue::season::ROOM;
use nvalue::stretch::Stretch;
use rules::row::Row;
use store::window::Window;

impl Problem {
    // The problem of the windows at the head of a room, one for each of so many lots, and of these rules.
    pub fn new(windows: [Window; ROOM], lots: usize, rules: &[Row]) -> Problem
        requires lots { lots ≤ 256 }
        requires few { length rules.now ≤ 33 }
        requires sound { AllByRecursion Sound (take lots windows) }
        requires fit { AllByRecursion (Fits lots) rules.now }
        ensures { sheet_in result ≡ sheet (take lots windows) rules.now }
    {
        let mut rows = [Row::default(); RULES];
        let used = rules.len();
        rows[..used].copy_from_slice(rules);
        Problem {
            windows,
            lots,
            rows,
            rules: used,
        }
    }

    // Becomes the problem of the lots from `start` on and before `end` of another: cheaper than a new one for each of
    // many small problems.
    pub fn fill(&mut self, whole: &Problem, start: usize, end: usize)
        requires ordered { start ≤ end }
        requires there { end ≤ length (sheet_in whole.now).windows }
        ensures { sheet_in self.new ≡ part_of start end (sheet_in whole.now) }
    {
        copy_front(&whole.windows()[start..end], &mut self.windows);
        self.lots = end - start;
        self.rules = copy_within(whole.rows(), start, end, &mut self.rows);
    }
}

// Writes windows to the front of a room for them.
fn copy_front(windows: &[Window], room: &mut [Window])
    requires { length windows.now ≤ length room.old }
    ensures { take (length windows.now) room.new ≡ windows.now }
{
    room[..windows.len()].copy_from_slice(windows);
}

// Writes the rules of the lots from `start` on and before `end` to the front of a room, numbered from `start`, and
// answers how many they are.
fn copy_within(rules: &[Row], start: usize, end: usize, room: &mut [Row]) -> usize
    requires room { length rules.now ≤ length room.old }
    requires fit { AllByRecursion (Fits 256) rules.now }
    ensures few { result ≤ length rules.now }
    ensures within { take result room.new ≡ within start end rules.now }
{
    let mut many = 0;
    for row in rules {
        let Stretch { first, length } = row.stretch;
        if start <= first && first + length <= end {
            room[many] = Row {
                stretch: Stretch {
                    first: first - start,
                    length,
                },
                ..*row
            };
            many += 1;
        }
    }
    many
}
