// Any windows in the order of their last days, sound or not and any number of them: so a place is a `usize`.
ghost use Rattle.std.specs.Prelude.{◌≡◌, ◌<◌, length, slice_index_or};
ghost use Rattle.std.specs.List.Sorted.{IsPermutation, IsNonDecreasingBy};
ghost use Rattle.extremes.specs.Orders.{slots};

use store::window::Window;

// Fills `order` with the windows' last days and places, the earliest last day first.
pub fn order_by_high(windows: &[Window], order: &mut [(u32, usize)])
    requires { length order.old ≡ length windows.now }
    ensures shuffled { IsPermutation (slots 0 windows.now) order.new }
    ensures rises { IsNonDecreasingBy (λ s. s.0) order.new }
{
    fill_places(windows, order);
    order.sort_unstable();
}

fn fill_places(windows: &[Window], order: &mut [(u32, usize)])
    requires { length order.old ≡ length windows.now }
    ensures { order.new ≡ slots 0 windows.now }
{
    for (place, window) in windows.iter().enumerate() {
        order[place] = (window.high, place);
    }
}

// The slot at a place of such an order; it names one of the windows.
pub fn slot_at(windows: &[Window], order: &[(u32, usize)], t: usize) -> (u32, usize)
    requires shuffled { IsPermutation (slots 0 windows.now) order.now }
    requires within { t < length windows.now }
    ensures value { result ≡ slice_index_or order.now t (0, 0) }
    ensures there { result.1 < length windows.now }
{
    order[t]
}
