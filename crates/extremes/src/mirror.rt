// Mirror images of windows and days, so that what works from the left also works from the right.
ghost use Rattle.std.specs.Prelude.{◌≡◌, map, length};
ghost use Rattle.extremes.specs.Mirror.{flip, mirrored};

use nvalue::season::{ROOM, Season};
use store::limits::LAST_DAY;
use store::window::Window;

// The mirror image of a day. No day lies past the last, so the subtraction never saturates.
pub fn flip_day(day: u32) -> u32
    ensures { result ≡ flip day }
{
    LAST_DAY.saturating_sub(day)
}

// Writes the mirror image of each window.
// That `image` is as long as `windows` is a clause: the two come from different hands, so no one type can hold both.
fn mirror_windows(windows: &[Window], image: &mut [Window])
    requires { length image.old ≡ length windows.now }
    ensures { image.new ≡ map mirrored windows.now }
{
    for (place, window) in windows.iter().enumerate() {
        image[place] = Window {
            low: flip_day(window.high),
            high: flip_day(window.low),
        };
    }
}

// The mirror image of a season, in the room that is lent for it.
pub fn mirror_season<'a>(season: Season, room: &'a mut [Window; ROOM]) -> Season<'a>
    ensures { result.windows.now ≡ map mirrored season.entry.windows.now }
{
    let image = &mut room[0..season.windows.len()];
    mirror_windows(season.windows, image);
    Season { windows: image }
}
