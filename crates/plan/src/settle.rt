// Settle: narrows a sheet to the greatest firm sheet inside it.
ghost use Rattle.std.specs.Prelude.{◌≡◌, ℕ, ◌<◌, [], length, slice_index, slice_set};
ghost use Rattle.std.specs.List.{AllByRecursion};
ghost use Rattle.store.specs.Sound.{Sound};
ghost use Rattle.store.specs.Windows.{window_at, Narrowed, Narrower, Onward};
ghost use Rattle.guard.specs.Cleared.{Cleared};
ghost use Rattle.propagation.specs.Problems.{sheet_in};
ghost use Rattle.sheet.specs.Books.{sheet_of};
ghost use Rattle.plan.specs.Ready.{slip_checks};
ghost use Rattle.plan.specs.Settles.{NoneExactly, Settles, SettlesBy};

use crate::ready::take_problem;
use guard::guard::{Guard, WORDS};
use propagation::problem::Problem;
use propagation::propagate::propagate_all;
use sheet::book::Book;
use sheet::fault::SheetFault;
use sheet::slip::Closed;
use store::store::WindowStore;
use store::window::Window;

// Leaves windows and count windows of which each end has a support, and which contain all such ones inside those it
// found; refuses where there are none. Slip, store, book and working words are parameters of their own: plan only
// reads store and book, and settle writes both.
pub fn settle<S: WindowStore>(
    slip: &Closed,
    store: &mut S,
    book: &mut Book,
    work: &mut [u32],
) -> Result<(), SheetFault>
    ensures settles { Settles (length work.old) slip.now.lots slip.now.rules (S.WindowStore.windows store.old)
        book.old result (S.WindowStore.windows store.new) book.new }
    ensures exactly { NoneExactly (length work.old) slip.now.lots slip.now.rules (S.WindowStore.windows store.old)
        book.old result }
    ensures reach { Onward (S.WindowStore.reached store.old) (S.WindowStore.reached store.new)
        (S.WindowStore.windows store.new) }
    ensures memory { S.WindowStore.memory store.new ≡ S.WindowStore.reached store.old
        (S.WindowStore.windows store.new) }
    ensures framed { S.WindowStore.frame store.new ≡ S.WindowStore.frame store.old }
    ensures cleared { Cleared work.old work.new }
{
    if work.len() < WORDS {
        return Err(SheetFault::ShortWork);
    }
    settle_on(slip, store, book, &mut work[0..WORDS])
}

// The same with the working words at hand, which are zero afterwards: what holds on every way out is promised here,
// once.
fn settle_on<S: WindowStore>(
    slip: &Closed,
    store: &mut S,
    book: &mut Book,
    words: &mut [u32],
) -> Result<(), SheetFault>
    ensures settles { SettlesBy
        (slip_checks slip.now.lots slip.now.rules (S.WindowStore.windows store.old) book.old)
        (S.WindowStore.windows store.old) book.old result (S.WindowStore.windows store.new) book.new }
    ensures reach { Onward (S.WindowStore.reached store.old) (S.WindowStore.reached store.new)
        (S.WindowStore.windows store.new) }
    ensures framed { S.WindowStore.frame store.new ≡ S.WindowStore.frame store.old }
    ensures zero { (k : ℕ) → k < length words.new → slice_index words.new k ≡ 0 }
    ensures each { length words.new ≡ length words.old }
{
    let _guard = Guard { words };
    let problem = take_problem(slip, store, book)?;
    settle_problem(store, book, problem)
}

// The same where every other check has passed, on a copy of windows and rules.
fn settle_problem<S: WindowStore>(
    store: &mut S,
    book: &mut Book,
    mut problem: Problem,
) -> Result<(), SheetFault>
    requires { sheet_in problem ≡ sheet_of (S.WindowStore.windows store.old) book.old }
    ensures settles { SettlesBy [] (S.WindowStore.windows store.old) book.old result
        (S.WindowStore.windows store.new) book.new }
    ensures reach { Onward (S.WindowStore.reached store.old) (S.WindowStore.reached store.new)
        (S.WindowStore.windows store.new) }
    ensures framed { S.WindowStore.frame store.new ≡ S.WindowStore.frame store.old }
{
    let Ok(()) = propagate_all(&mut problem) else {
        return Err(SheetFault::NoFirmWindows);
    };
    book.narrow_all(problem.rows());
    put_windows(store, problem.windows());
    Ok(())
}

// Moves the ends of a store's windows to those of windows that lie inside them.
fn put_windows<S: WindowStore>(store: &mut S, windows: &[Window])
    requires inside { Narrowed windows.now (S.WindowStore.windows store.old) }
    requires sound { AllByRecursion Sound windows.now }
    ensures moved { S.WindowStore.windows store.new ≡ windows.now }
    ensures reach { Onward (S.WindowStore.reached store.old) (S.WindowStore.reached store.new) windows.now }
    ensures framed { S.WindowStore.frame store.new ≡ S.WindowStore.frame store.old }
{
    for (lot, window) in windows.iter().enumerate() {
        put_window(store, lot, *window);
    }
}

// Moves the ends of one window; both calls are accepted.
fn put_window<S: WindowStore>(store: &mut S, lot: usize, window: Window)
    requires there { lot < length (S.WindowStore.windows store.old) }
    requires inside { Narrower window (window_at (S.WindowStore.windows store.old) lot) }
    requires sound { Sound window }
    ensures moved { S.WindowStore.windows store.new ≡ slice_set (S.WindowStore.windows store.old) lot window }
    ensures reach { Onward (S.WindowStore.reached store.old) (S.WindowStore.reached store.new)
        (S.WindowStore.windows store.new) }
    ensures framed { S.WindowStore.frame store.new ≡ S.WindowStore.frame store.old }
{
    let _ = store.raise(lot, window.low);
    let _ = store.lower(lot, window.high);
}
