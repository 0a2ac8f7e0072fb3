// Listing a plan: its days as text.
ghost use Rattle.std.specs.Prelude.{◌≡◌, ◌≤◌, length};
ghost use Rattle.listing.specs.Lists.{Lists};
ghost use Rattle.listing.specs.Text.{lines_from};
ghost use Rattle.store.specs.Over.{over};

use crate::fault::ListFault;
use crate::line::{write_count, write_lot};
use crate::measure::list_length;
use nvalue::count::different_days;
use store::limits::LOTS;

// Writes the text of a plan to the first bytes, and answers how many they are; the bytes past them stay.
pub fn list(days: &[u32], out: &mut [u8]) -> Result<usize, ListFault>
    ensures { Lists days.now out.old result out.new }
{
    if days.len() > LOTS {
        return Err(ListFault::TooManyLots);
    }
    let count = different_days(days);
    if out.len() < list_length(days, count) {
        return Err(ListFault::ShortBytes);
    }
    let end = write_lots(days, out);
    Ok(end + write_count(count, &mut out[end..]))
}

// The lines of the lots.
fn write_lots(days: &[u32], out: &mut [u8]) -> usize
    requires { length (lines_from 0 days.now) ≤ length out.old }
    ensures long { result ≡ length (lines_from 0 days.now) }
    ensures written { out.new ≡ over (lines_from 0 days.now) out.old }
{
    let mut end = 0;
    for (lot, day) in days.iter().enumerate() {
        end += write_lot(lot, *day, &mut out[end..]);
    }
    end
}
