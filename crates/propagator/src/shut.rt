// Where a lot is shut out: days that no choice with the most different days gives to it.
ghost use Rattle.std.specs.Prelude.{◌≡◌, ◌<◌, ◌≢◌, true, false, length, slice_index};
ghost use Rattle.store.specs.Windows.{window_at};
ghost use Rattle.nvalue.specs.Choices.{In};
ghost use Rattle.extremes.specs.Flags.{Unset};
ghost use Rattle.propagator.specs.Supports.{BestDay};
ghost use Rattle.propagator.specs.Matching.{IsMatching};
ghost use Rattle.propagator.specs.Reach.{Faces, Shuts};

use crate::reach::Reach;
use nvalue::season::Season;
use store::window::Window;

// The matching of a choice with the most different days: each lot's day, each day's mate, and the lots that can be
// spared. That they are is about that choice (`Best`), so it is no proposition that a ghost field could hold.
#[derive(Clone, Copy)]
pub struct Matching<'a> {
    pub season: Season<'a>,
    pub days: &'a [u32],
    pub mates: &'a [Option<u16>],
    pub spare: &'a [bool],
}

// Is the lot shut out of a day, another than its own? Then of all days seen in the end; else a best choice gives it
// the day. If the lot takes the day, the one that had it needs another of its window, and so on: an alternating
// path. Such paths come to a free day, or to the lot's own; or else the days that they reach are all theirs. Days
// that were seen for the lot before are not seen again.
pub fn shut_out(matching: Matching, lot: usize, day: u32, reach: &mut Reach) -> bool
    requires matching { IsMatching matching }
    requires there { lot < length matching.season.windows.now }
    requires bound { Unset matching.spare.now lot }
    requires other { day ≢ slice_index matching.days.now lot }
    requires inside { In (window_at matching.season.windows.now lot) day }
    requires facing { Faces matching lot day reach.old }
    requires room { reach.old.high < length matching.mates.now }
    ensures reached { result ≡ false → BestDay matching.entry.season.windows.now lot day }
    ensures shut { result ≡ true → Shuts matching.entry lot day reach.new }
    ensures room { result ≡ true → reach.new.high < length matching.entry.mates.now }
{
    let own = matching.days[lot];
    while let Some(next) = reach.step(own) {
        if next == own {
            return false;
        }
        let Some(mate) = matching.mates[next as usize] else {
            return false;
        };
        let mate = mate as usize;
        if !matching.spare[mate] {
            reach.widen(matching.season.windows[mate]);
        }
    }
    true
}
