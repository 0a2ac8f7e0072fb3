// Reading the windows of a store into lent room.
ghost use Rattle.std.specs.Prelude.{◌≡◌, ◌<◌, ◌≤◌, length, drop, take};
ghost use Rattle.store.specs.Checks.{Checked};
ghost use Rattle.nvalue.specs.Seasons.{Filled, Reads};

use super::making::first_faulty;
use super::{ROOM, SeasonFault};
use store::limits::LOTS;
use store::store::{WindowStore, read_window};
use store::window::Window;

// Copies the windows of a store to the head of the room, and answers how many they are.
// Refused where there are more than 256, or where one is faulty.
pub fn read_windows<S: WindowStore>(
    store: &S,
    room: &mut [Window; ROOM],
) -> Result<usize, SeasonFault>
    ensures checked { Reads (S.WindowStore.windows store.now) result }
    ensures filled { Filled (S.WindowStore.windows store.now) room.old room.new }
{
    let lots = store.lots();
    if lots > LOTS {
        return Err(SeasonFault::TooManyLots);
    }
    let windows = &mut room[..lots];
    copy_windows(store, windows);
    match first_faulty(windows) {
        Some(lot) => Err(SeasonFault::FaultyWindow(lot)),
        None => Ok(lots),
    }
}

// By the lots' numbers, since a store lends no slice and answers for a lot by its number.
fn copy_windows<S: WindowStore>(store: &S, windows: &mut [Window])
    requires { length windows.old ≡ length (S.WindowStore.windows store.now) }
    ensures { windows.new ≡ S.WindowStore.windows store.now }
{
    for (lot, window) in windows.iter_mut().enumerate() {
        if let Some(found) = read_window(store, lot) {
            *window = found;
        }
    }
}
