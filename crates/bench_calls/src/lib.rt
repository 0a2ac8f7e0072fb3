// C calls to the counting functions, for the benchmark under bench/: C has no `Result`, so 0 stands for a refusal.
// Windows are words: of each lot its low, then its high.
#![tactic(auto)]

pub mod planning;

ghost use Rattle.std.specs.Prelude.{◌≡◌};
ghost use Rattle.store.specs.Pairs.{paired};
ghost use Rattle.guard.specs.Cleared.{Cleared};
ghost use Rattle.count.specs.Asked.{FewestAnswer, MostShown};
ghost use Rattle.bench_calls.specs.Counted.{AsksWords, TightensWords};

use base_stores::words::WordStore;
use count::fewest::fewest;
use count::most::most;
use nvalue::count_window::CountWindow;
use nvalue::season::{ROOM, Season};
use nvalue::stretch::Stretch;
use propagator::copy::copy;
use propagator::tighten::tighten;
use store::window::Window;

// The fewest days of the first `lots` lots; 0 where the question is refused.
#[unsafe(no_mangle)]
pub extern "C" fn bench_fewest(
    words: &mut [u32],
    lots: usize,
    answer: &mut [u32],
    work: &mut [u32],
) -> usize
    ensures asked { AsksWords FewestAnswer (λ m. m) (paired words.old) lots work.old
        answer.old result answer.new }
    ensures windows { words.new ≡ words.old }
    ensures cleared { Cleared work.old work.new }
{
    let all = Stretch {
        first: 0,
        length: lots,
    };
    fewest(&WordStore::new(words), all, answer, work).unwrap_or(0)
}

// The most days of the first `lots` lots, 0 where the question is refused.
#[unsafe(no_mangle)]
pub extern "C" fn bench_most(
    words: &mut [u32],
    lots: usize,
    answer: &mut [u32],
    work: &mut [u32],
) -> usize
    ensures asked { AsksWords MostShown (λ shown. shown.count) (paired words.old) lots work.old
        answer.old result answer.new }
    ensures windows { words.new ≡ words.old }
    ensures cleared { Cleared work.old work.new }
{
    let all = Stretch {
        first: 0,
        length: lots,
    };
    most(&WordStore::new(words), all, answer, work).map_or(0, |shown| shown.count)
}

// Narrows windows to the tightest for a count window, and gives the new ceiling; 0 where no choice is left or the
// question is refused, and then the windows stay.
#[unsafe(no_mangle)]
pub extern "C" fn bench_tighten(windows: &mut [Window], floor: u32, ceiling: u32) -> u32
    ensures { TightensWords windows.old floor ceiling result windows.new }
{
    let Some(count) = CountWindow::new(floor, ceiling) else {
        return 0;
    };
    let mut room = [Window::default(); ROOM];
    match Season::new(windows) {
        Ok(season) => match tighten(season, count, &mut room) {
            Some(tight) => {
                copy(tight.season.windows, windows);
                tight.count.ceiling()
            }
            None => 0,
        },
        Err(_) => 0,
    }
}
