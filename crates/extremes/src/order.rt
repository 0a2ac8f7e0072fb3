// Lots in the order of their last days.
ghost use Rattle.std.specs.Prelude.{◌≡◌, ◌≤◌, length};
ghost use Rattle.extremes.specs.Orders.{slots, ByLastDay};

use nvalue::season::{ROOM, Season};
use store::window::Window;

mod any;

pub use any::{order_by_high, slot_at};

// A lot's last day, and its place in the stretch.
pub type Slot = (u32, u32);

// The lots of a season, the earliest last day first, in the room that is lent for them. That the order is such stays a
// clause of those who take it: a permutation has its swaps as data, and a ghost field holds none.
pub fn by_last_day<'a>(season: Season, room: &'a mut [Slot; ROOM]) -> &'a [Slot]
    ensures { ByLastDay season.entry.windows.now result.now }
{
    let order = &mut room[..season.windows.len()];
    fill_slots(season.windows, order);
    order.sort_unstable();
    order
}

// That `order` is as long as `windows` is a clause: the two come from different hands, so no one type can hold both.
fn fill_slots(windows: &[Window], order: &mut [Slot])
    requires each { length order.old ≡ length windows.now }
    requires few { length windows.now ≤ 257 }
    ensures { order.new ≡ slots 0 windows.now }
{
    for (place, window) in windows.iter().enumerate() {
        order[place] = (window.high, place as u32);
    }
}
