// The line by which a refusal is told.
ghost use Rattle.listing.specs.Lists.{WritesRefusal};

use crate::fault::ListFault;
use crate::line::write_pair;
use crate::measure::refusal_length;

// Writes the line to the first bytes, and answers how many they are; the bytes past them stay.
pub fn write_refusal(number: u32, place: usize, out: &mut [u8]) -> Result<usize, ListFault>
    ensures { WritesRefusal number place out.old result out.new }
{
    if out.len() < refusal_length(number, place) {
        return Err(ListFault::ShortBytes);
    }
    Ok(write_pair(b"refused ", number as usize, b" place ", place, out))
}
