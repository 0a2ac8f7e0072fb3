// A question about the windows of a stretch, over any store: every question makes the same checks in the same order,
// and uses the working words alike.
ghost use Rattle.std.specs.Prelude.{◌≡◌, ℕ, ◌*◌, ◌<◌, ◌≤◌, List, length, slice_index};
ghost use Rattle.store.specs.declared.window.Window.{Window};
ghost use Rattle.store.specs.Checks.{Checked};
ghost use Rattle.nvalue.specs.Choices.{part};
ghost use Rattle.count.specs.Asked.{AnsweredLent, AnsweredOf, Asks};
ghost use Rattle.guard.specs.Cleared.{Cleared};

use crate::fault::CountFault;
use guard::guard::{Guard, WORDS};
use nvalue::season::{ROOM, Season, read_windows};
use nvalue::stretch::Stretch;
use store::store::WindowStore;
use store::window::Window;

pub trait Question {
    // What is counted.
    type Count;

    // What an answer says of the windows of a stretch that begins at a lot, of the answer words before and after,
    // and of the count.
    ghost Answers: { List Window → ℕ → List ℕ → List ℕ → Self.Count → Type 0 };

    // Answers for the windows of a stretch that begins at the lot `first`.
    fn find(season: Season, first: usize, answer: &mut [u32], scratch: &mut [u32]) -> Self::Count
        requires within { first ≤ 256 }
        requires room { 2 * length season.windows.now ≤ length answer.old }
        requires scratch { length season.windows.now ≤ length scratch.old }
        ensures { Answers season.entry.windows.now first answer.old answer.new result };
}

// Asks a question about a stretch. A refusal writes no answer word; the working words are zero afterwards.
pub(crate) fn ask<Q: Question, S: WindowStore>(
    store: &S,
    stretch: Stretch,
    answer: &mut [u32],
    work: &mut [u32],
) -> Result<Q::Count, CountFault>
    ensures asked { Asks Q.Question.Answers (S.WindowStore.windows store.now) stretch work.old answer.old result
        answer.new }
    ensures cleared { Cleared work.old work.new }
{
    if work.len() < WORDS {
        return Err(CountFault::ShortWork);
    }
    ask_on::<Q, S>(store, stretch, answer, &mut work[0..WORDS])
}

// The same with the words at hand, which are zero afterwards.
fn ask_on<Q: Question, S: WindowStore>(
    store: &S,
    stretch: Stretch,
    answer: &mut [u32],
    words: &mut [u32],
) -> Result<Q::Count, CountFault>
    requires { length words.old ≡ 4096 }
    ensures asked { AnsweredLent Q.Question.Answers (S.WindowStore.windows store.now) stretch answer.old result
        answer.new }
    ensures zero { (k : ℕ) → k < length words.new → slice_index words.new k ≡ 0 }
{
    let guard = Guard { words };
    let mut room = [Window::default(); ROOM];
    let lots = read_windows(store, &mut room)?;
    let season = Season {
        windows: &room[..lots],
    };
    ask_of::<Q>(season, stretch, answer, guard.words)
}

// The same of the windows of all lots.
fn ask_of<Q: Question>(
    season: Season,
    stretch: Stretch,
    answer: &mut [u32],
    scratch: &mut [u32],
) -> Result<Q::Count, CountFault>
    requires few { length season.windows.now ≤ 256 }
    requires scratch { 256 ≤ length scratch.old }
    ensures { AnsweredOf Q.Question.Answers season.entry.windows.now stretch answer.old result answer.new }
{
    if !stretch.lies_within(season.windows.len()) {
        return Err(CountFault::NoSuchStretch);
    }
    let windows = season.part(stretch.first, stretch.length);
    let windows = windows.ok_or(CountFault::NoSuchStretch)?;
    if answer.len() < 2 * stretch.length {
        return Err(CountFault::ShortAnswer);
    }
    Ok(Q::find(windows, stretch.first, answer, scratch))
}
