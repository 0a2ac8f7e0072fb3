// The fewest different days of a stretch, over any store.
ghost use Rattle.std.specs.Prelude.{◌≡◌, ◌+◌, ◌*◌, ◌<◌, ◌≤◌, map, length};
ghost use Rattle.std.specs.List.{AllByRecursion};
ghost use Rattle.count.specs.Asked.{AsksFewest, FewestAnswer};
ghost use Rattle.guard.specs.Cleared.{Cleared};

use crate::fault::CountFault;
use crate::question::{Question, ask};
use extremes::stabbing::fewest_of;
use nvalue::season::Season;
use nvalue::stretch::Stretch;
use store::store::WindowStore;

// The least count m that a choice for a stretch can have. Into the answer words go the days of such a choice, lot
// by lot, and behind them the numbers of m of the stretch's lots, no two of which have a day in common: hence
// nobody needs fewer. Which choice, which lots and in what order is free.
pub fn fewest<S: WindowStore>(
    store: &S,
    stretch: Stretch,
    answer: &mut [u32],
    work: &mut [u32],
) -> Result<usize, CountFault>
    ensures asked { AsksFewest (S.WindowStore.windows store.now) stretch work.old answer.old result answer.new }
    ensures cleared { Cleared work.old work.new }
{
    ask::<LeastCount, S>(store, stretch, answer, work)
}

// The least count, as a question.
struct LeastCount;

impl Question for LeastCount {
    type Count = usize;

    ghost Answers = { FewestAnswer };

    fn find(season: Season, first: usize, answer: &mut [u32], scratch: &mut [u32]) -> usize {
        let lots = season.windows.len();
        let count = fewest_of(season, &mut answer[0..lots], scratch);
        number_lots(
            &scratch[0..count],
            first as u32,
            &mut answer[lots..lots + count],
        );
        count
    }
}

// Writes the numbers of lots that are given by their places in the stretch.
// That `numbers` is as long as `places` is a clause: they come from different hands, so no one type can hold both.
fn number_lots(places: &[u32], first: u32, numbers: &mut [u32])
    requires each { length numbers.old ≡ length places.now }
    requires small { AllByRecursion (λ p. p < 257) places.now }
    requires within { first ≤ 256 }
    ensures { numbers.new ≡ map (λ p. first + p) places.now }
{
    for (i, place) in places.iter().enumerate() {
        numbers[i] = first + *place;
    }
}
