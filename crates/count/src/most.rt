// The most different days of a stretch, over any store.
ghost use Rattle.std.specs.Prelude.{◌≡◌, ◌+◌, ◌*◌, ◌<◌, length};
ghost use Rattle.store.specs.Pairs.{paired};
ghost use Rattle.count.specs.Asked.{AsksMost, MostShown};
ghost use Rattle.guard.specs.Cleared.{Cleared};

use crate::fault::CountFault;
use crate::question::{Question, ask};
pub use extremes::matching::Most;
use extremes::matching::most_of;
use nvalue::season::{ROOM, Season};
use nvalue::stretch::Stretch;
use store::store::WindowStore;
use store::window::Window;

// The greatest count that a choice for a stretch can have, and how many runs prove it. Into the answer words go the
// days of such a choice, lot by lot, and behind them each run's first and last day. No two runs have a day in
// common, each is violated, and the surpluses of all of them are the lots that the count falls short by: hence
// nobody has more days. Which choice, which runs and in what order is free.
pub fn most<S: WindowStore>(
    store: &S,
    stretch: Stretch,
    answer: &mut [u32],
    work: &mut [u32],
) -> Result<Most, CountFault>
    ensures asked { AsksMost (S.WindowStore.windows store.now) stretch work.old answer.old result answer.new }
    ensures cleared { Cleared work.old work.new }
{
    ask::<GreatestCount, S>(store, stretch, answer, work)
}

// The greatest count, as a question.
struct GreatestCount;

impl Question for GreatestCount {
    type Count = Most;

    ghost Answers = { MostShown };

    fn find(season: Season, _first: usize, answer: &mut [u32], _scratch: &mut [u32]) -> Most {
        let lots = season.windows.len();
        let mut runs = [Window::default(); ROOM];
        let most = most_of(season, &mut answer[0..lots], &mut runs);
        let shown = most.runs;
        write_runs(&runs[0..shown], &mut answer[lots..lots + 2 * shown]);
        most
    }
}

// Writes runs as first and last day in turn.
fn write_runs(runs: &[Window], words: &mut [u32])
    requires { length words.old ≡ 2 * length runs.now }
    ensures { paired words.new ≡ runs.now }
{
    for (i, run) in runs.iter().enumerate() {
        words[2 * i] = run.low;
        words[2 * i + 1] = run.high;
    }
}
