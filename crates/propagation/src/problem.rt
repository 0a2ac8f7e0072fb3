// A constraint problem: the windows of a sheet's lots, and the rules over them.
ghost use Rattle.std.specs.Prelude.{◌≡◌, ◌≤◌, length, take};
ghost use Rattle.std.specs.List.{AllByRecursion};
ghost use Rattle.std.proofs.Props.{props};
ghost use Rattle.store.specs.Sound.{Sound};
ghost use Rattle.rules.specs.Sheets.{Fits};

use nvalue::season::ROOM;
use rules::row::Row;
use store::window::Window;

// The most rules of a problem: one more than a book has room for.
pub const RULES: usize = 33;

// At most 256 lots with sound windows, and at most 33 rules that fit them. The rooms are fixed, since the planner
// takes no memory; what they hold past the windows and the rules in use means nothing.
#[derive(Clone, Copy)]
pub struct Problem {
    windows: [Window; ROOM],
    lots: usize,
    rows: [Row; RULES],
    rules: usize,
    ghost room: { length windows ≡ 257 },
    ghost few: { lots ≤ 256 },
    ghost rows_room: { length rows ≡ 33 },
    ghost few_rules: { rules ≤ 33 },
    ghost sound: { AllByRecursion Sound (take lots windows) } by { Prim.hlevel props },
    ghost fit: { AllByRecursion (Fits lots) (take rules rows) } by { Prim.hlevel props },
}

mod making;
mod reading;
mod writing;
